// Which blocks are joined by ordinary labels, over any chain. A node is block b, as b, or label l, as 128 + l; each node has
// the number that its group goes by, and joining two nodes renames the group of one.
#![tactic(auto)]

ghost use Rattle.std.specs.Prelude.{map, ◌≡◌, ◌<◌, ◌≤◌, length};
ghost use Rattle.rules.specs.Base.{up_from};
ghost use Rattle.rules.specs.Format.{most_blocks};
ghost use Rattle.rules.specs.Labels.{renamed, join_labels, groups};
ghost use Rattle.groups.specs.Nodes.{all_nodes};

use rules::Block;

// 128 blocks, then 256 labels.
const FIRST_LABEL: usize = 128;

const NODES: usize = 384;

// Each node by itself.
fn alone() -> [u16; NODES]
    ensures { result ≡ up_from 0 all_nodes }
{
    std::array::from_fn(|node| node as u16)
}

// The group that goes by the old number takes the new one.
fn rename(nodes: &mut [u16; NODES], old: u16, new: u16)
    ensures { nodes.new ≡ map (renamed old new) nodes.old }
{
    for number in nodes.iter_mut() {
        *number = if *number == old { new } else { *number };
    }
}

// Block b is joined with each of the labels.
fn join(nodes: &mut [u16; NODES], b: usize, labels: &[u8])
    requires { b < most_blocks }
    ensures { nodes.new ≡ join_labels nodes.old b labels.now }
{
    for l in labels {
        let label = FIRST_LABEL + usize::from(*l);
        let old = nodes[label];
        let new = nodes[b];
        rename(nodes, old, new);
    }
}

// The number that each node's group goes by.
pub fn groups_of(blocks: &[Block]) -> [u16; NODES]
    requires { length blocks.now ≤ most_blocks }
    ensures { result ≡ groups blocks.now }
{
    let mut nodes = alone();
    for (b, block) in blocks.iter().enumerate() {
        join(&mut nodes, b, short::of_entry(block.entry).labels());
        join(&mut nodes, b, short::of_exit(block.exit).labels());
    }
    nodes
}
