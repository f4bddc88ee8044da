// The clauses that speak of the rows, taken together.
ghost use Rattle.std.specs.Prelude.{◌≡◌, List, ◌≤◌};
ghost use Rattle.rules.specs.Format.{most_blocks};
ghost use Rattle.rules.specs.Machine.{standing, view};
ghost use Rattle.rules.specs.Fits.{is_live};
ghost use Rattle.rules.specs.declared.Block.{Block};
ghost use Rattle.ordered.specs.Ordered.{Ordered};
ghost use Rattle.fits.specs.Rows.{rows_fit};
ghost use Rattle.own.specs.Tables.{Tables};

use crate::children::{all_whole, tally_of};
use calls::Calls;
use identifier::Identifier;
use machine::find::row_of;
use newest::{all_newest, newest_of};
use own::all_own;
use places::Places;

// The process is live.
fn is_live(m: &[u32], identifier: u32) -> bool
    requires { Ordered m.now }
    ensures { result ≡ is_live (standing (view m.now).rows identifier) }
{
    row_of(m, identifier).is_some()
}

// The root is live; each live process stands in its own process block, has none or all of its call's children, and has the newest
// history entry that it must.
pub fn rows_fit(m: &[u32], places: &Places, calls: &Calls) -> bool
    requires { Ordered m.now × (calls.now.count ≤ most_blocks) }
    ensures { (program : List Block) → Tables program places.now calls.now → result ≡ rows_fit program (view m.now) }
{
    is_live(m, Identifier::ROOT)
        && all_own(m, places, calls)
        && all_whole(m, &tally_of(m), places, calls)
        && all_newest(m, &newest_of(m), places)
}
