// The one decode of a whole image, for judging and stepping: document 01, "The image", and codes 1 to 8 of "Judging".
#![tactic(auto)]

mod block;
mod program;

ghost use Rattle.std.specs.Prelude.{◌≡◌, ◌≤◌, length};
ghost use Rattle.rules.specs.Format.{longest, most_blocks};
ghost use Rattle.rules.specs.Read.{blocks_at, decoded};
ghost use Rattle.decode.specs.Shows.{InFront, Shows};

use block::block_at;
use image::{Cursor, Fault};
pub use program::Program;
use rules::{Block, Code, Refused};

// An image is 1 to 4,096 bytes, a row of at most 128 blocks.
const LONGEST: usize = 4096;

// A place in an image fits a word.
fn refused(fault: Fault) -> Refused
    requires { fault.place ≤ longest }
    ensures { result ≡ record { code = fault.code; place = fault.place } }
{
    Refused {
        code: fault.code,
        place: fault.place as u32,
    }
}

// The blocks of an image that is not too long go to the front of the array: how many there are. (The array is lent and neither
// function is inlined, so that decoding holds the blocks once beside its answer.)
#[inline(never)]
fn read(s: &[u8], blocks: &mut [Block; 128]) -> Result<usize, Refused>
    requires { length s.now ≤ longest }
    ensures { InFront blocks.new (blocks_at most_blocks s.now 0) result }
{
    let mut count = 0;
    let mut cursor = Cursor { at: 0 };
    while cursor.at < s.len() {
        if count == Program::MOST {
            return Err(refused(Fault {
                code: Code::TooManyBlocks,
                place: cursor.at,
            }));
        }
        let (block, next) = block_at(s, cursor).map_err(refused)?;
        blocks[count] = block;
        count += 1;
        cursor = next;
    }
    Ok(count)
}

// Reads a whole image, once for all that judging and stepping ask of it.
#[inline(never)]
pub fn decode(s: &[u8]) -> Result<Program, Refused>
    ensures { Shows (decoded s.now) result }
{
    if s.is_empty() || LONGEST < s.len() {
        return Err(Refused::from(Code::ImageLength));
    }
    let mut blocks = [laws::no_block(); 128];
    let count = read(s, &mut blocks)?;
    Ok(Program { blocks, count })
}
