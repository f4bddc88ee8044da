// The clause of code 17 on where a row may stand: in its process's own process block. That is main for the root, and for child i of p the i-th label of
// the call at whose exit label p stands.
#![tactic(auto)]

ghost use Rattle.std.specs.Prelude.{◌≡◌, List, ◌≤◌, ◌<◌};
ghost use Rattle.rules.specs.Base.{each_of};
ghost use Rattle.rules.specs.Format.{most_blocks};
ghost use Rattle.rules.specs.Machine.{place, live_count, view};
ghost use Rattle.rules.specs.Fits.{stands_in, called_at, nth, own_label, own_fits};
ghost use Rattle.rules.specs.declared.Block.{Block};
ghost use Rattle.laws.proofs.View.{row_at};
ghost use Rattle.places.specs.Places.{Entries, Exits};
ghost use Rattle.own.specs.Tables.{Homes, CallsIn, Tables};
ghost use Rattle.laws.specs.Found.{given};
ghost use Rattle.ordered.specs.Ordered.{Ordered};

use calls::Calls;
use identifier::Identifier;
use machine::find::row_of;
use machine::{LABEL, ROWS, STAGE};
use places::Places;
use rules::Place;

// The label of the root's process block.
const MAIN: u8 = 0;

// A call names at most so many labels, and each block has as many places for them.
const MOST_CALLED: usize = 8;

// The label and stage are of the process block of label l: begin and end need l itself, run an ordinary label of its blocks.
fn stands_in(places: &Places, calls: &Calls, l: u8, label: u32, stage: u32) -> bool
    requires { calls.now.count ≤ most_blocks }
    ensures { (program : List Block) → Entries program places.now → Homes program calls.now → result ≡ stands_in program l (place label stage) }
{
    if stage == Place::BEGIN || stage == Place::END {
        return label == u32::from(l);
    }
    match places.entry_block(label, stage) {
        Some(b) if b < calls.count => calls.homes[b] == l,
        _ => false,
    }
}

// The labels of the call at whose exit label the place is; none at any other place.
pub fn called_at<'a>(places: &Places, calls: &'a Calls, label: u32, stage: u32) -> &'a [u8]
    requires { calls.now.count ≤ most_blocks }
    ensures { (program : List Block) → Exits program places.now → CallsIn program calls.now → result.now ≡ called_at program (place label stage) }
{
    match places.exit_block(label, stage) {
        Some(b) if b < calls.count => {
            let first = MOST_CALLED * b;
            &calls.names[first..first + MOST_CALLED.min(usize::from(calls.counts[b]))]
        }
        _ => &[],
    }
}

// The i-th label, counted from 1.
fn nth(labels: &[u8], i: u32) -> Option<u8>
    ensures { given result ≡ nth labels.now i }
{
    let at = (i as usize).checked_sub(1)?;
    labels.get(at).copied()
}

// The label of a process's own process block; none where its parent is not live, or names no such child.
fn own_label(m: &[u32], places: &Places, calls: &Calls, identifier: u32) -> Option<u8>
    requires { Ordered m.now × (calls.now.count ≤ most_blocks) }
    ensures { (program : List Block) → Exits program places.now → CallsIn program calls.now → given result ≡ own_label program (view m.now).rows identifier }
{
    if identifier == Identifier::ROOT {
        return Some(MAIN);
    }
    let process = Identifier::from(identifier);
    let parent = row_of(m, process.parent().number)?;
    let called = called_at(places, calls, m[LABEL + 3 * parent], m[STAGE + 3 * parent]);
    nth(called, process.digit())
}

// The process of row i stands in its own process block.
fn own_fits(m: &[u32], places: &Places, calls: &Calls, i: usize) -> bool
    requires { Ordered m.now × (calls.now.count ≤ most_blocks) × (i < live_count m.now) }
    ensures { (program : List Block) → Tables program places.now calls.now → result ≡ own_fits program (view m.now).rows (row_at m.now i) }
{
    match own_label(m, places, calls, m[ROWS + 3 * i]) {
        Some(l) => stands_in(places, calls, l, m[LABEL + 3 * i], m[STAGE + 3 * i]),
        None => false,
    }
}

// Each live process does.
pub fn all_own(m: &[u32], places: &Places, calls: &Calls) -> bool
    requires { Ordered m.now × (calls.now.count ≤ most_blocks) }
    ensures { (program : List Block) → Tables program places.now calls.now → result ≡ each_of (own_fits program (view m.now).rows) (view m.now).rows }
{
    let live = m[0] as usize;
    (0..live).all(|i| own_fits(m, places, calls, i))
}
