// The newest entry of a process, looked for from the end.
ghost use Rattle.cause.specs.Held.{Long, Newest};

use machine::HISTORY;

// The place of the newest entry, where there is one.
pub fn newest(m: &[u32], identifier: u32) -> Option<usize>
    requires { Long m.now }
    ensures { Newest m.now identifier result }
{
    for at in (0..m[1] as usize).rev() {
        if m[HISTORY + 2 * at] == identifier {
            return Some(at);
        }
    }
    None
}
