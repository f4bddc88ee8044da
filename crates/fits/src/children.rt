// The children of each live process, counted: a process has none, or as many as the call at whose exit label it stands names. That
// they are then that call's 1 to n follows from where each child stands and from the rows' order.
ghost use Rattle.std.specs.Prelude.{◌≡◌, List, ℕ, ◌≤◌, ◌<◌, get_or};
ghost use Rattle.rules.specs.Base.{each_of};
ghost use Rattle.rules.specs.Format.{most_blocks};
ghost use Rattle.rules.specs.Machine.{live_count, view};
ghost use Rattle.rules.specs.declared.Block.{Block};
ghost use Rattle.laws.proofs.View.{row_at};
ghost use Rattle.places.specs.Places.{Exits};
ghost use Rattle.own.specs.Tables.{CallsIn};
ghost use Rattle.ordered.specs.Ordered.{Ordered};
ghost use Rattle.fits.specs.Children.{OneMore, Tally, whole_family};

use calls::Calls;
use identifier::Identifier;
use machine::find::row_of;
use machine::{LABEL, ROWS, STAGE};
use own::called_at;
use places::Places;

// One more child of the process whose child the identifier is.
fn count_child(tally: &mut [u8; 64], m: &[u32], identifier: u32)
    requires { Ordered m.now × ((x : ℕ) → x < live_count m.now → get_or tally.old x 0 ≤ 64) }
    ensures { OneMore m.now identifier tally.old tally.new }
{
    if identifier == Identifier::ROOT {
        return;
    }
    if let Some(parent) = row_of(m, Identifier::from(identifier).parent().number) {
        tally[parent] += 1;
    }
}

// How many children each live process has.
pub fn tally_of(m: &[u32]) -> [u8; 64]
    requires { Ordered m.now }
    ensures { Tally m.now result }
{
    let mut tally = [0u8; 64];
    for i in 0..m[0] as usize {
        count_child(&mut tally, m, m[ROWS + 3 * i]);
    }
    tally
}

// The process of row i has none of its call's children, or all.
fn whole(m: &[u32], tally: &[u8; 64], places: &Places, calls: &Calls, i: usize) -> bool
    requires { Ordered m.now × (calls.now.count ≤ most_blocks) × Tally m.now tally.now × (i < live_count m.now) }
    ensures { (program : List Block) → Exits program places.now → CallsIn program calls.now → result ≡ whole_family program (view m.now).rows (row_at m.now i) }
{
    let called = called_at(places, calls, m[LABEL + 3 * i], m[STAGE + 3 * i]);
    tally[i] == 0 || usize::from(tally[i]) == called.len()
}

// Each live process does.
pub fn all_whole(m: &[u32], tally: &[u8; 64], places: &Places, calls: &Calls) -> bool
    requires { Ordered m.now × (calls.now.count ≤ most_blocks) × Tally m.now tally.now }
    ensures { (program : List Block) → Exits program places.now → CallsIn program calls.now
        → result ≡ each_of (whole_family program (view m.now).rows) (view m.now).rows }
{
    let live = m[0] as usize;
    (0..live).all(|i| whole(m, tally, places, calls, i))
}
