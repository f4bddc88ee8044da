// Code 10: each label is counted, over all blocks, as an ordinary label of an entry and of an exit, as a begin and as an end.
#![tactic(auto)]

mod counts;

ghost use Rattle.std.specs.Prelude.{◌≤◌, length};
ghost use Rattle.rules.specs.Format.{most_blocks};
ghost use Rattle.labels.specs.Counts.{LabelledOf};

pub use counts::Counts;
use rules::Block;

// The lowest block that is refused; and in how many begins each label stands.
#[derive(Drop)]
pub struct Labelled {
    pub bad: Option<usize>,
    pub begins: [u16; 256],
}

// Code 10, and the begins counted.
pub fn ten(blocks: &[Block]) -> Labelled
    requires { length blocks.now ≤ most_blocks }
    ensures { LabelledOf blocks.now result }
{
    let counts = Counts::of(blocks);
    Labelled {
        bad: blocks.iter().position(|block| counts.is_bad(block)),
        begins: counts.begins,
    }
}
