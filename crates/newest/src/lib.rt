// The clause of code 17 that speaks of the newest history entry of each live process.
#![tactic(auto)]

ghost use Rattle.std.specs.Prelude.{◌≡◌, ◌<◌, List};
ghost use Rattle.rules.specs.Base.{each_of};
ghost use Rattle.rules.specs.Machine.{live_count, view};
ghost use Rattle.rules.specs.Fits.{is_block, newest_fits};
ghost use Rattle.rules.specs.declared.Block.{Block};
ghost use Rattle.laws.proofs.View.{row_at};
ghost use Rattle.places.specs.Places.{Exits};
ghost use Rattle.laws.specs.Found.{given};
ghost use Rattle.ordered.specs.Ordered.{Ordered};
ghost use Rattle.ordered.specs.Search.{Identifiers};
ghost use Rattle.newest.specs.Newest.{Noted, NewestOf};

use machine::{BLOCK, HISTORY, LABEL, STAGE};
use ordered::find::{identifiers, row_in};
use places::Places;
use rules::Place;

// The entry is the newest so far of its process.
fn note(newest: &mut [Option<u32>; 64], m: &[u32], ids: &[u32; 64], identifier: u32, block: u32)
    requires { Ordered m.now × Identifiers m.now ids.now }
    ensures { Noted m.now identifier block newest.old newest.new }
{
    if let Some(row) = row_in(m, ids, identifier) {
        newest[row] = Some(block);
    }
}

// The block of the newest entry of each live process.
pub fn newest_of(m: &[u32]) -> [Option<u32>; 64]
    requires { Ordered m.now }
    ensures { NewestOf m.now result }
{
    let ids = identifiers(m);
    let mut newest = [None; 64];
    for k in 0..m[1] as usize {
        note(&mut newest, m, &ids, m[HISTORY + 2 * k], m[BLOCK + 2 * k]);
    }
    newest
}

// The newest entry's block is this one.
fn is_newest(newest: Option<u32>, block: usize) -> bool
    ensures { result ≡ is_block (given newest) block }
{
    newest.is_some_and(|kept| kept as usize == block)
}

// Row i is at begin, or has as its newest entry's block the one whose exit holds its place.
fn newest_fits(m: &[u32], newest: &[Option<u32>; 64], places: &Places, i: usize) -> bool
    requires { Ordered m.now × NewestOf m.now newest.now × (i < live_count m.now) }
    ensures { (program : List Block) → Exits program places.now → result ≡ newest_fits program (view m.now).history (row_at m.now i) }
{
    let stage = m[STAGE + 3 * i];
    let block = places
        .exit_block(m[LABEL + 3 * i], stage)
        .unwrap_or(places.count);
    stage == Place::BEGIN || is_newest(newest[i], block)
}

// Each row does.
pub fn all_newest(m: &[u32], newest: &[Option<u32>; 64], places: &Places) -> bool
    requires { Ordered m.now × NewestOf m.now newest.now }
    ensures { (program : List Block) → Exits program places.now → result ≡ each_of (newest_fits program (view m.now).history) (view m.now).rows }
{
    let live = m[0] as usize;
    (0..live).all(|i| newest_fits(m, newest, places, i))
}
