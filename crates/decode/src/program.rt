// The blocks of a decoded image, of which there are at most 128.

ghost use Rattle.std.specs.Prelude.{◌≤◌};

use rules::Block;

// The first count of the blocks.
#[derive(Drop)]
pub struct Program {
    pub(crate) blocks: [Block; 128],
    pub(crate) count: usize,
    pub ghost few: { count ≤ 128 },
}

impl Program {
    ghost use Rattle.std.specs.Prelude.{◌≡◌, length};
    ghost use Rattle.decode.specs.Blocks.{blocks_in};

    // The most blocks that an image has.
    pub const MOST: usize = 128;

    pub fn blocks(&self) -> &[Block]
        ensures are { result.now ≡ blocks_in self.now }
        ensures few { length result.now ≤ 128 }
    {
        &self.blocks[..self.count]
    }
}
