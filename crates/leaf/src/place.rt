// The place that a side of a block, its entry or its exit, gives on a memory with writes pending.
ghost use Rattle.std.specs.Prelude.{◌≡◌, length};
ghost use Rattle.rules.specs.Machine.{machine_words, place, view};
ghost use Rattle.rules.specs.Leaf.{tried, chosen};
ghost use Rattle.evaluate.specs.Shown.{written};
ghost use Rattle.leaf.specs.Side.{SideFit, side_place};

use evaluate::Writes;
use machine::{MEMORY, MEMORY_WORDS, ROWS};
use rules::{Code, Entry, Exit, Place};

// A side of a block. A step comes in by the one and leaves by the other: an undo comes in by the exit.
#[derive(Clone, Copy)]
pub enum Side {
    Entry(Entry),
    Exit(Exit),
}

fn place_of(label: u8, stage: u32) -> Place
    ensures { result ≡ place label stage }
{
    Place {
        label: u32::from(label),
        stage,
    }
}

// The first label where the condition is true, else the second.
#[tactic(auto, unfolding(rules::specs::Base::pick, rules::specs::Leaf::chosen))]
fn chosen(first: u8, second: u8, condition: u32) -> Place
    ensures { result ≡ chosen first second condition }
{
    if condition == 0 {
        place_of(second, Place::RUN)
    } else {
        place_of(first, Place::RUN)
    }
}

#[tactic(auto, unfolding(rules::specs::Leaf::after, rules::specs::Leaf::entry_place, rules::specs::Leaf::exit_place, crate::specs::Side::side_place))]
pub fn side_place(memory: &[u32; MEMORY_WORDS], writes: Writes, side: Side) -> Result<Place, Code>
    requires { SideFit side }
    ensures { tried result ≡ side_place (written writes memory.now) side }
{
    match side {
        Side::Entry(Entry::From(l)) | Side::Exit(Exit::To(l)) => Ok(place_of(l, Place::RUN)),
        Side::Entry(Entry::Either(l, m, e)) | Side::Exit(Exit::Either(e, l, m)) => {
            let condition = evaluate::expression(memory, writes, e)?;
            Ok(chosen(l, m, condition))
        }
        Side::Entry(Entry::Begin(l)) => Ok(place_of(l, Place::BEGIN)),
        Side::Exit(Exit::End(l)) => Ok(place_of(l, Place::END)),
    }
}

// The memory among a machine's words.
#[tactic(auto, unfolding(rules::specs::Machine::view))]
pub(crate) fn memory_of(m: &[u32]) -> &[u32; MEMORY_WORDS]
    requires { length m.now ≡ machine_words }
    ensures { result.now ≡ (view m.now).memory }
{
    m[MEMORY..ROWS].as_array().unwrap()
}

// The place on a machine's words, with nothing pending.
#[tactic(auto, unfolding(rules::specs::Machine::view, evaluate::specs::Shown::written))]
pub fn place_on(m: &[u32], side: Side) -> Result<Place, Code>
    requires { (length m.now ≡ machine_words) × SideFit side }
    ensures { tried result ≡ side_place (view m.now).memory side }
{
    side_place(memory_of(m), Writes::Nothing, side)
}
