// What a block reads and writes, as masks of resources (document 01, "The cause graph"); the masks of all blocks are computed once an
// image.
#![tactic(auto)]

pub mod mask;

ghost use Rattle.std.specs.Prelude.{◌≤◌, length};
ghost use Rattle.rules.specs.Format.{most_blocks};
ghost use Rattle.masks.specs.Masks.{MasksOf, BlocksFit};

use rules::Block;

// Of each block what it reads and what it writes.
#[derive(Clone, Copy)]
pub struct Masks {
    pub reads: [u64; 128],
    pub writes: [u64; 128],
}

impl Masks {
    pub fn of(blocks: &[Block]) -> Masks
        requires { (length blocks.now ≤ most_blocks) × BlocksFit blocks.now }
        ensures { MasksOf blocks.now result }
    {
        let mut reads = [0u64; 128];
        let mut writes = [0u64; 128];
        for (b, block) in blocks.iter().enumerate() {
            reads[b] = mask::reads(block);
            writes[b] = mask::writes(block);
        }
        Masks { reads, writes }
    }
}
