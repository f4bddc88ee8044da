// Code 11, and the label of each block's process block: the begins and ends of each group of blocks.
#![tactic(auto)]

mod grouped;
mod own;
mod tally;

ghost use Rattle.std.specs.Prelude.{◌≤◌, length};
ghost use Rattle.rules.specs.Format.{most_blocks};
ghost use Rattle.processes.specs.Own.{ProcessesOf};

use grouped::Groups;
pub use own::Own;
use rules::Block;
pub use tally::Tally;

// Groups go by the numbers of 128 blocks and 256 labels.
const NODES: usize = 384;

// The lowest block that is refused; and the label of each block's process block.
#[derive(Drop)]
pub struct Processes {
    pub bad: Option<usize>,
    pub homes: [u8; 128],
}

// Code 11, and the label of each block's process block.
pub fn process_blocks(blocks: &[Block]) -> Processes
    requires { length blocks.now ≤ most_blocks }
    ensures { ProcessesOf blocks.now result }
{
    let groups = Groups::of(blocks);
    let own = Own::of(blocks, &groups);
    Processes {
        bad: own.first_bad(blocks.len(), &groups),
        homes: own.homes(&groups),
    }
}
