// Changes of a machine's words in place: a value of the memory, an entry kept or closed up, a row moved, rows put in and taken out.
// Laws in proofs/ take each to `pack` of the changed machine.
#![tactic(auto)]

ghost use Rattle.std.specs.Prelude.{◌≡◌, ◌+◌, ◌*◌, ◌≤◌, ◌<◌, length, get_or};
ghost use Rattle.change.specs.Words.{written_words, kept_entry, closed_entry, moved_row, inserted_rows, removed_rows};

use machine::{HISTORY, LABEL, MEMORY, ROWS, STAGE};

// Writes value `at` of the memory.
pub fn write(m: &mut [u32], at: usize, value: u32)
    requires { (length m.old ≡ 8674) × (at < 288) }
    ensures { m.new ≡ written_words m.old at value }
{
    m[MEMORY + at] = value;
}

// Keeps a history entry.
pub fn keep(m: &mut [u32], identifier: u32, block: u32)
    requires { (length m.old ≡ 8674) × (get_or m.old 1 0 < 4096) }
    ensures { m.new ≡ kept_entry m.old identifier block }
{
    let n = m[1];
    let at = HISTORY + 2 * n as usize;
    m[at] = identifier;
    m[at + 1] = block;
    m[1] = n + 1;
}

// Closes up the history entry at i.
pub fn close_up(m: &mut [u32], i: usize)
    requires { (length m.old ≡ 8674) × (get_or m.old 1 0 ≤ 4096) × (i < get_or m.old 1 0) }
    ensures { m.new ≡ closed_entry m.old i }
{
    let n = m[1];
    let at = HISTORY + 2 * i;
    let end = HISTORY + 2 * n as usize;
    m.copy_within(at + 2..end, at);
    m[end - 2..end].fill(0);
    m[1] = n - 1;
}

// Moves row i to a label and stage.
pub fn move_row(m: &mut [u32], i: usize, label: u32, stage: u32)
    requires { (length m.old ≡ 8674) × (i < 64) }
    ensures { m.new ≡ moved_row m.old i label stage }
{
    m[LABEL + 3 * i] = label;
    m[STAGE + 3 * i] = stage;
}

// Puts n rows, given by their words, in at row i.
pub fn insert_rows(m: &mut [u32], i: usize, n: usize, new: &[u32])
    requires { (length m.old ≡ 8674) × (i ≤ get_or m.old 0 0) × (get_or m.old 0 0 + n ≤ 64) × (length new.now ≡ 3 * n) }
    ensures { m.new ≡ inserted_rows m.old i n new.now }
{
    let live = m[0] as usize;
    let at = ROWS + 3 * i;
    let end = ROWS + 3 * live;
    m.copy_within(at..end, at + 3 * n);
    m[at..at + 3 * n].copy_from_slice(new);
    m[0] = (live + n) as u32;
}

// Takes out n rows from row i on.
pub fn remove_rows(m: &mut [u32], i: usize, n: usize)
    requires { (length m.old ≡ 8674) × (get_or m.old 0 0 ≤ 64) × (i + n ≤ get_or m.old 0 0) }
    ensures { m.new ≡ removed_rows m.old i n }
{
    let live = m[0] as usize;
    let at = ROWS + 3 * i;
    let end = ROWS + 3 * live;
    m.copy_within(at + 3 * n..end, at);
    m[end - 3 * n..end].fill(0);
    m[0] = (live - n) as u32;
}
