// What several crates call: the block of a place that has none. The laws about rules' definitions that their proofs cite stand in proofs/.
#![tactic(auto)]

ghost use Rattle.std.specs.Prelude.{◌≡◌};
ghost use Rattle.rules.specs.Labels.{no_block};

use rules::{Block, Entry, Exit, Instruction};

// The block of a place that has none.
pub fn no_block() -> Block
    ensures { result ≡ no_block }
{
    Block {
        entry: Entry::Begin(0),
        instruction: Instruction::Skip,
        exit: Exit::End(0),
    }
}
