// Code 14, "a call names the label of its own process block, or one from which that block is reached through calls": a grid
// has a bit for each two blocks, 1 where the first reaches the second. It begins with what each call names, and then each
// block in turn adds what is reached over it.
ghost use Rattle.std.specs.Prelude.{◌≡◌, ◌<◌, ◌≤◌, length};
ghost use Rattle.rules.specs.Format.{most_blocks};
ghost use Rattle.rules.specs.Value.{flag};
ghost use Rattle.rules.specs.Calls.{reaches_over, bad14};
ghost use Rattle.laws.specs.Found.{found};
ghost use Rattle.calls.specs.Table.{calling, Tabled};
ghost use Rattle.calls.specs.Grid.{bit_of, Word, Members, Joined, RowsDone, added, Reaching};

use super::{Calls, LABELS};

// A row has a bit for each of as many blocks, and there are as many rows.
const BLOCKS: usize = 128;

// Whether bit k of a row is 1.
fn has(row: u128, k: usize) -> bool
    requires { k < most_blocks }
    ensures { bit_of row k ≡ flag result }
{
    (row >> k) % 2 == 1
}

// For each label the blocks of its process block, a bit for each.
fn members(calls: &Calls) -> [u128; LABELS]
    requires { Tabled calls.now }
    ensures { Members calls.now.homes calls.now.count result }
{
    let mut members = [0u128; LABELS];
    for c in 0..calls.count {
        members[usize::from(calls.homes[c])] |= 1 << c;
    }
    members
}

// Row b, as block b's own call names it: the blocks of each process block that it calls.
fn direct_row(calls: &Calls, members: &[u128; LABELS], b: usize) -> u128
    requires tabled { Tabled calls.now }
    requires members { Members calls.now.homes calls.now.count members.now }
    requires b_lt_count { b < calls.now.count }
    ensures { Word (λ c. flag (reaches_over (calling calls.now) 0 b c)) 0 calls.now.count result }
{
    let mut row: u128 = 0;
    for label in calls.called(b) {
        row |= members[usize::from(*label)];
    }
    row
}

// What each block's own call names.
fn direct(calls: &Calls, grid: &mut [u128])
    requires { Tabled calls.now × (length grid.old ≡ calls.now.count) }
    ensures { Reaching (calling calls.now) calls.now.count 0 grid.new }
{
    let members = members(calls);
    for (b, row) in grid.iter_mut().enumerate() {
        *row = direct_row(calls, &members, b);
    }
}

// A row takes in what block m adds to it: the row of block m, where block m is reached. (Any other row is only read.)
fn join(row: &mut u128, m: usize, row_of_m: u128)
    requires { m < most_blocks }
    ensures { Joined row.old m row_of_m row.new }
{
    if has(*row, m) {
        *row |= row_of_m;
    }
}

// Every row with what block m adds to it; a block that reaches none adds nothing.
fn onward(m: usize, grid: &mut [u128])
    requires { (length grid.old ≤ most_blocks) × (m < length grid.old) }
    ensures { RowsDone (added grid.old m) grid.old (length grid.old) (length grid.old) grid.new }
{
    let row_of_m = grid[m];
    if row_of_m == 0 {
        return;
    }
    for row in grid.iter_mut() {
        join(row, m, row_of_m);
    }
}

// What each block reaches through calls.
fn closed(calls: &Calls, grid: &mut [u128])
    requires { Tabled calls.now × (length grid.old ≡ calls.now.count) }
    ensures { Reaching (calling calls.now) calls.now.count calls.now.count grid.new }
{
    direct(calls, grid);
    for m in 0..calls.count {
        onward(m, grid);
    }
}

// The lowest block that code 14 is given for.
pub fn fourteen(calls: &Calls) -> Option<usize>
    requires { Tabled calls.now }
    ensures { result ≡ found (bad14 (calling calls.now)) calls.now.count }
{
    let mut rows = [0u128; BLOCKS];
    let grid = &mut rows[..calls.count];
    closed(calls, grid);
    (0..calls.count).find(|b| has(grid[*b], *b))
}
