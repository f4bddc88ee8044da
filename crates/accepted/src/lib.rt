// The blocks of an accepted image and any words: the plan of a step, document 01, the codes 16, 17, 19 and 18, then those of the step
// itself; and in readiness the list.
#![tactic(auto)]

mod direction;
pub mod readiness;

ghost use Rattle.std.specs.Prelude.{◌≡◌, ◌<◌, ◌≤◌, length};
ghost use Rattle.rules.specs.Machine.{live_count, view};
ghost use Rattle.rules.specs.Fits as Rules;
ghost use Rattle.rules.specs.Words.{step_of, step_in};
ghost use Rattle.theorems.specs.Program.{Sound};
ghost use Rattle.places.specs.Places.{PlacesOf};
ghost use Rattle.step.specs.Ready.{process_at, here_at, Plans};
ghost use Rattle.plans.specs.Known.{Known, Finishes};
ghost use Rattle.accepted.specs.Direction.{numbered};
ghost use Rattle.accepted.specs.Fitting.{Fitting};

use direction::Direction;
use masks::Masks;
use places::Places;
use rules::{Block, Code};
use step::plan::Plan;

// The machine fits the image.
pub fn machine_fits(m: &[u32], blocks: &[Block], places: &Places) -> bool
    requires { (length m.now ≡ 8674) × (length blocks.now ≤ 128) × PlacesOf blocks.now places.now }
    ensures { result ≡ Rules.fits blocks.now m.now }
{
    let processes = processes::process_blocks(blocks);
    let calls = called::call_table(blocks, processes.homes);
    fits::fits(m, places, &calls)
}

// Codes 16 and 17, then the tables of places that the rest of a step or of the list works with.
fn fitting(m: &[u32], blocks: &[Block]) -> Result<Places, Code>
    requires { length blocks.now ≤ 128 }
    ensures { Fitting blocks.now m.now result }
{
    if m.len() != machine::WORDS {
        return Err(Code::SliceLength);
    }
    let places = Places::of(blocks);
    if !machine_fits(m, blocks, &places) {
        return Err(Code::Unfit);
    }
    Ok(places)
}

// The plan of a step of a live process.
fn plan_of(
    m: &[u32],
    blocks: &[Block],
    places: &Places,
    row: usize,
    direction: Direction,
) -> Result<Plan, Code>
    requires { Known blocks.now m.now × (length blocks.now ≤ 128) × (row < live_count m.now) × PlacesOf blocks.now places.now }
    ensures { Plans m.now result (step_of blocks.now (view m.now) (process_at m.now row) (here_at m.now row) (numbered direction)) }
{
    match direction {
        Direction::Forward => plans::forward_plan(m, blocks, places, row),
        Direction::Undo => plans::undo_plan(m, blocks, places, &Masks::of(blocks), row),
    }
}

// The plan of a step on the blocks of an accepted image, for any words.
pub fn plan_on(m: &[u32], blocks: &[Block], process: u32, direction: u32) -> Result<Plan, Code>
    requires { Sound blocks.now × (length blocks.now ≤ 128) }
    ensures { Finishes m.now result (step_in m.now process direction blocks.now) }
{
    let places = fitting(m, blocks)?;
    let direction = Direction::try_from(direction)?;
    let row = machine::find::row_of(m, process).ok_or(Code::NotLive)?;
    plan_of(m, blocks, &places, row, direction)
}
