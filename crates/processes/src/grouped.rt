// The group of each block, by the number that it goes by.

ghost use Rattle.groups.specs.Nodes.{all_nodes};
ghost use Rattle.processes.specs.Below.{Below};

use super::NODES;
use rules::Block;

// For each node the number of its group.
#[derive(Drop)]
pub struct Groups {
    pub numbers: [u16; NODES],
    ghost below: { Below all_nodes numbers },
}

impl Groups {
    ghost use Rattle.std.specs.Prelude.{◌≡◌, ◌<◌, ◌≤◌, length, get_or};
    ghost use Rattle.rules.specs.Format.{most_blocks};
    ghost use Rattle.rules.specs.Labels.{groups};

    pub fn of(blocks: &[Block]) -> Groups
        requires { length blocks.now ≤ most_blocks }
        ensures { result.numbers ≡ groups blocks.now }
    {
        Groups {
            numbers: groups::groups_of(blocks),
        }
    }

    // The group of block b.
    pub fn of_block(&self, b: usize) -> usize
        requires { b < most_blocks }
        ensures { (result ≡ get_or self.now.numbers b 0) × (result < all_nodes) }
    {
        usize::from(self.numbers[b])
    }
}
