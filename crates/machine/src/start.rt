// The machine at its start.
ghost use Rattle.std.specs.Prelude.{◌≡◌, List};
ghost use Rattle.rules.specs.Words.{start_in};
ghost use Rattle.rules.specs.declared.Block.{Block};
ghost use Rattle.machine.specs.Outcome.{ended};

use super::{MEMORY, MEMORY_WORDS, ROWS, WORDS};
use rules::Code;

// The root at main, begin, with no history: every word is written. Writes nothing where a length is wrong.
pub fn start(first: &[u32], m: &mut [u32]) -> Result<(), Code>
    ensures { (program : List Block) → ended result m.new ≡ start_in first.now m.old program }
{
    if first.len() != MEMORY_WORDS || m.len() != WORDS {
        return Err(Code::SliceLength);
    }
    m.fill(0);
    m[MEMORY..ROWS].copy_from_slice(first);
    m[0] = 1;
    Ok(())
}
