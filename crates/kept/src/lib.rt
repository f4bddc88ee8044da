// The clause of code 17 that speaks of each history entry: its block and its identifier.
#![tactic(auto)]

ghost use Rattle.std.specs.Prelude.{◌≡◌, ◌&&◌, List, length, ltb};
ghost use Rattle.rules.specs.Base.{each_of};
ghost use Rattle.rules.specs.Calls.{deepest};
ghost use Rattle.rules.specs.Machine.{view};
ghost use Rattle.rules.specs.Fits.{digits_fit, kept_fits};
ghost use Rattle.rules.specs.declared.Block.{Block};
ghost use Rattle.ordered.specs.Ordered.{Ordered};

use identifier::Identifier;
use machine::{BLOCK, HISTORY};

// The identifier's digits are 1 to 8, but for the root's 0.
fn digits_fit(identifier: u32) -> bool
    ensures { result ≡ digits_fit deepest identifier }
{
    let mut rest = Identifier::from(identifier);
    for _ in 0..Identifier::DEPTH {
        if rest.number == Identifier::ROOT {
            return true;
        }
        let digit = rest.digit();
        if digit < 1 || Identifier::MOST_CALLED < digit {
            return false;
        }
        rest = rest.parent();
    }
    rest.number == Identifier::ROOT
}

// The entry's block is one of the n, and its identifier one of a process.
fn kept_fits(identifier: u32, block: u32, n: usize) -> bool
    ensures { result ≡ ltb block n && digits_fit deepest identifier }
{
    (block as usize) < n && digits_fit(identifier)
}

// Each entry's are.
pub fn all_kept(m: &[u32], n: usize) -> bool
    requires { Ordered m.now }
    ensures { (program : List Block) → length program ≡ n → result ≡ each_of (kept_fits program) (view m.now).history }
{
    let kept = m[1] as usize;
    (0..kept).all(|k| kept_fits(m[HISTORY + 2 * k], m[BLOCK + 2 * k], n))
}
