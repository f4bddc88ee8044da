// The row of a process, by halves. A history has many more entries than there are rows: so the identifiers are first laid side by
// side, and each search takes the same six steps whatever it looks for.
ghost use Rattle.std.specs.Prelude.{◌≡◌, List, ℕ, ◌<◌, ltb, IfSome};
ghost use Rattle.rules.specs.Base.{pick};
ghost use Rattle.rules.specs.Machine.{live_count};
ghost use Rattle.laws.specs.Found.{or_else};
ghost use Rattle.machine.specs.RowOf.{row_of};
ghost use Rattle.ordered.specs.Ordered.{Ordered};
ghost use Rattle.ordered.specs.Search.{Identifiers, Around};

use machine::{MOST_ROWS, ROWS};

// Stands where there is no row: no identifier is above it.
const HIGHEST: u32 = u32::MAX;

// The identifiers of the rows.
pub fn identifiers(m: &[u32]) -> [u32; 64]
    requires { Ordered m.now }
    ensures { Identifiers m.now result }
{
    let mut ids = [HIGHEST; 64];
    for i in 0..m[0] as usize {
        ids[i] = m[ROWS + 3 * i];
    }
    ids
}

// A choice of numbers, and not of ways: so it is made without a jump.
fn half_if_below(x: u32, identifier: u32, half: usize) -> usize
    ensures { result ≡ pick (ltb x identifier) half 0 }
{
    if x < identifier { half } else { 0 }
}

// The only row that can have the identifier.
fn candidate(ids: &[u32; 64], identifier: u32) -> usize
    ensures { (result < 64) × ((w : List ℕ) → Ordered w → Identifiers w ids.now → Around w identifier result) }
{
    let mut low: usize = 0;
    let mut width = MOST_ROWS;
    while 1 < width {
        let half = width / 2;
        low += half_if_below(ids[low + half - 1], identifier, half);
        width -= half;
    }
    low
}

// The row of a process that is live.
pub fn row_in(m: &[u32], ids: &[u32; 64], identifier: u32) -> Option<usize>
    requires { Ordered m.now × Identifiers m.now ids.now }
    ensures row { or_else result (live_count m.now) ≡ row_of m.now identifier }
    ensures live { IfSome result (λ i. i < live_count m.now) }
{
    let row = candidate(ids, identifier);
    (row < m[0] as usize && ids[row] == identifier).then_some(row)
}
