// A block: an entry, a body and an exit, each read by the cursor that the one before it handed back.
#![tactic(auto, unfolding(rules::specs::Read::next, rules::specs::Read::block_at))]

ghost use Rattle.std.specs.Prelude.{◌≡◌};
ghost use Rattle.rules.specs.Read.{block_at};
ghost use Rattle.image.specs.Shown.{shown};

use image::{Cursor, Fault};
use rules::Block;

// The block at the cursor.
pub(crate) fn block_at(s: &[u8], cursor: Cursor) -> Result<(Block, Cursor), Fault>
    ensures { shown result ≡ block_at s.now cursor.at }
{
    let (entry, body) = cursor.entry(s)?;
    let (instruction, after) = body.instruction(s, entry)?;
    let (exit, next) = after.exit(s, instruction)?;
    let block = Block {
        entry,
        instruction,
        exit,
    };
    Ok((block, next))
}
