// A row of the machine's words.
#![tactic(auto)]

ghost use Rattle.std.specs.Prelude.{◌≡◌, ◌<◌, length};
ghost use Rattle.step.specs.Ready.{process_at, here_at};

use machine::{LABEL, ROWS, STAGE};
use rules::Place;

// What a row says: a process, and where it stands.
#[derive(Clone, Copy)]
pub struct Process {
    pub identifier: u32,
    pub stands: Place,
}

impl Process {
    pub fn of_row(m: &[u32], row: usize) -> Self
        requires { (length m.now ≡ 8674) × (row < 64) }
        ensures identifier { result.identifier ≡ process_at m.now row }
        ensures stands { result.stands ≡ here_at m.now row }
    {
        Process {
            identifier: m[ROWS + 3 * row],
            stands: Place {
                label: m[LABEL + 3 * row],
                stage: m[STAGE + 3 * row],
            },
        }
    }
}
