// The clauses that speak of the words alone: counts, unused words, the order of the rows.
ghost use Rattle.std.specs.Prelude.{◌≡◌, ◌≤◌, length, eqb};
ghost use Rattle.rules.specs.Base.{each_of};
ghost use Rattle.rules.specs.Machine.{live_count, history_count, view};
ghost use Rattle.rules.specs.Fits.{counts_fit, unused_zero, ascending};
ghost use Rattle.ordered.specs.Ordered.{in_order};

use machine::{HISTORY, MOST_KEPT, MOST_ROWS, ROWS};

// No count is out of range.
fn counts_fit(m: &[u32]) -> bool
    requires { length m.now ≡ 8674 }
    ensures { result ≡ counts_fit m.now }
{
    m[0] as usize <= MOST_ROWS && m[1] <= MOST_KEPT
}

fn all_zero(words: &[u32]) -> bool
    ensures { result ≡ each_of (λ w. eqb w 0) words.now }
{
    words.iter().all(|word| *word == 0)
}

// Every unused word is zero.
fn unused_zero(m: &[u32]) -> bool
    requires { (length m.now ≡ 8674) × (live_count m.now ≤ 64) × (history_count m.now ≤ 4096) }
    ensures { result ≡ unused_zero m.now }
{
    let live = m[0] as usize;
    let kept = m[1] as usize;
    all_zero(&m[ROWS + 3 * live..HISTORY]) && all_zero(&m[HISTORY + 2 * kept..])
}

// The rows ascend.
fn ascends(m: &[u32]) -> bool
    requires { (length m.now ≡ 8674) × (live_count m.now ≤ 64) }
    ensures { result ≡ ascending (view m.now).rows }
{
    let live = m[0] as usize;
    (1..live).all(|i| m[ROWS + 3 * i - 3] < m[ROWS + 3 * i])
}

// All three.
pub fn in_order(m: &[u32]) -> bool
    requires { length m.now ≡ 8674 }
    ensures { result ≡ in_order m.now }
{
    counts_fit(m) && unused_zero(m) && ascends(m)
}
