// What a plan reads of a process's children: where their rows begin, how many they are, and whether all stand at a stage.
#![tactic(auto)]

ghost use Rattle.std.specs.Prelude.{◌≡◌, ◌<◌, ◌≤◌, length, eqb};
ghost use Rattle.rules.specs.Base.{each_of};
ghost use Rattle.rules.specs.Machine.{live_count, view, child, is_child_of, children};
ghost use Rattle.step.specs.Ready.{FirstFrom};
ghost use Rattle.family.specs.Room.{Room};

use identifier::Identifier;
use machine::{MOST_ROWS, ROWS, STAGE};
use rules::Code;

// Process q is a child of p.
fn is_child(p: u32, q: u32) -> bool
    ensures { result ≡ is_child_of p q }
{
    q != Identifier::ROOT && Identifier::from(q).parent() == Identifier::from(p)
}

// The row where the children of p stand, or would: the first whose identifier is at least that of child 1.
pub fn first_child(m: &[u32], p: u32) -> usize
    requires { (length m.now ≡ 8674) × (live_count m.now ≤ 64) }
    ensures { FirstFrom m.now (child p 1) result }
{
    let live = m[0] as usize;
    let from = Identifier::from(p).children_from();
    (0..live)
        .position(|i| from <= m[ROWS + 3 * i] as usize)
        .unwrap_or(live)
}

// The row where so many new children of p go in: there must be room for them.
pub fn room(m: &[u32], p: u32, count: u8) -> Result<usize, Code>
    requires { (length m.now ≡ 8674) × (live_count m.now ≤ 64) }
    ensures { Room m.now p count result }
{
    if MOST_ROWS < m[0] as usize + usize::from(count) {
        return Err(Code::NoRoom);
    }
    Ok(first_child(m, p))
}

// How many children p has.
pub fn child_count(m: &[u32], p: u32) -> usize
    requires { (length m.now ≡ 8674) × (live_count m.now ≤ 64) }
    ensures { result ≡ length (children (view m.now).rows p) }
{
    (0..m[0] as usize)
        .filter(|i| is_child(p, m[ROWS + 3 * *i]))
        .count()
}

// All children of p stand at the stage.
pub fn children_at(m: &[u32], p: u32, stage: u32) -> bool
    requires { (length m.now ≡ 8674) × (live_count m.now ≤ 64) }
    ensures { result ≡ each_of (λ c. eqb c.stands.stage stage) (children (view m.now).rows p) }
{
    (0..m[0] as usize).all(|i| !is_child(p, m[ROWS + 3 * i]) || m[STAGE + 3 * i] == stage)
}
