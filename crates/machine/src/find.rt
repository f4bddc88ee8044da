// Looking a process up among the rows.
ghost use Rattle.std.specs.Prelude.{◌≡◌, ◌≤◌, ◌<◌, length, IfSome};
ghost use Rattle.rules.specs.Machine.{live_count};
ghost use Rattle.laws.specs.Found.{or_else};
ghost use Rattle.machine.specs.RowOf.{row_of};

use super::ROWS;

// The row of a process that is live.
pub fn row_of(m: &[u32], identifier: u32) -> Option<usize>
    requires { (length m.now ≡ 8674) × (live_count m.now ≤ 64) }
    ensures row { or_else result (live_count m.now) ≡ row_of m.now identifier }
    ensures live { IfSome result (λ i. i < live_count m.now) }
{
    let live = m[0] as usize;
    (0..live).find(|i| m[ROWS + 3 * *i] == identifier)
}
