// Code 15, "main is deeper than 8 or its peak is over 64": the peak of a label and the sum over one call's labels call each
// other, with the levels left falling, and neither answers where it is over. Each peak is kept in a memo, so that no image
// takes more than a sum for each level and block. Nine levels are enough: a label that is nine deep counts as over.
ghost use Rattle.std.specs.Prelude.{◌≡◌, ◌+◌, ◌≤◌};
ghost use Rattle.rules.specs.Calls.{most_rows, sum_of};
ghost use Rattle.laws.specs.Acyclic.{Acyclic};
ghost use Rattle.calls.specs.Table.{calling, Tabled};
ghost use Rattle.calls.specs.Peaks.{levels_tried, unless_over, peak_within, Memo, peak_unless_refused};

use super::{Calls, LABELS};

// The rows that the machine has.
const ROWS: u8 = 64;

const LEVELS: usize = 9;

const MAIN: u8 = 0;

// The peaks found so far, by levels left and label.
type Memo = [[Option<u8>; LABELS]; LEVELS];

// The sum of two peaks, unless it is over.
fn together(x: u8, y: u8) -> Option<u8>
    requires { (x ≤ most_rows) × (y ≤ most_rows) }
    ensures { result ≡ unless_over (x + y) }
{
    let rows = x + y;
    (rows <= ROWS).then_some(rows)
}

// The peak of a label, with so many levels left.
#[cycle(peak_sum)]
fn peak(calls: &Calls, label: u8, levels: usize, memo: &mut Memo) -> Option<u8>
    requires tabled { Tabled calls.now }
    requires levels_le_levels_tried { levels ≤ levels_tried }
    requires memo { Memo (calling calls.now) memo.old }
    ensures { (result ≡ unless_over (peak_within (calling calls.now) levels label)) × Memo (calling calls.now) memo.new }
{
    let left = levels.checked_sub(1)?;
    let known = memo[left][usize::from(label)];
    if known.is_some() {
        return known;
    }
    let mut best: u8 = 0;
    for b in 0..calls.count {
        if calls.homes[b] == label {
            best = best.max(sum(calls, calls.called(b), left, memo)?);
        }
    }
    let value = together(best, 1)?;
    memo[left][usize::from(label)] = Some(value);
    Some(value)
}

// The sum of the peaks of some labels.
#[cycle(peak_sum)]
fn sum(calls: &Calls, labels: &[u8], levels: usize, memo: &mut Memo) -> Option<u8>
    requires tabled { Tabled calls.now }
    requires levels_le_levels_tried { levels ≤ levels_tried }
    requires memo { Memo (calling calls.now) memo.old }
    ensures { (result ≡ unless_over (sum_of (peak_within (calling calls.now) levels) labels.now)) × Memo (calling calls.now) memo.new }
{
    let mut value: u8 = 0;
    for label in labels {
        value = together(value, peak(calls, *label, levels, memo)?)?;
    }
    Some(value)
}

// Main's peak, where code 15 is not given. Code 14 must have passed.
pub fn main_peak(calls: &Calls) -> Option<u32>
    requires tabled { Tabled calls.now }
    requires acyclic { Acyclic (calling calls.now) }
    ensures { result ≡ peak_unless_refused (calling calls.now) }
{
    let mut memo = [[None; LABELS]; LEVELS];
    peak(calls, MAIN, LEVELS, &mut memo).map(u32::from)
}
