// Code 17, document 01: do a machine's words fit a program? Exactly rules' `fits`, from the words and the tables of the program; linear
// in the history but for a search by halves among the live rows.
#![tactic(auto)]

mod children;
mod rows;

ghost use Rattle.std.specs.Prelude.{◌≡◌, List, ◌≤◌, length};
ghost use Rattle.rules.specs.Format.{most_blocks};
ghost use Rattle.rules.specs.Fits as Rules;
ghost use Rattle.rules.specs.declared.Block.{Block};
ghost use Rattle.own.specs.Tables.{Tables};

use calls::Calls;
use places::Places;

// The machine fits the program: the answer is false where the code is 17.
pub fn fits(m: &[u32], places: &Places, calls: &Calls) -> bool
    requires { (length m.now ≡ 8674) × (calls.now.count ≤ most_blocks) }
    ensures { (program : List Block) → Tables program places.now calls.now → result ≡ Rules.fits program m.now }
{
    ordered::words::in_order(m)
        && rows::rows_fit(m, places, calls)
        && kept::all_kept(m, calls.count)
}
