// The plans of one live process, by the tables of the image: what a step would do, and the step made.
#![tactic(auto)]

ghost use Rattle.std.specs.Prelude.{◌≡◌, ◌<◌, ◌≤◌, length};
ghost use Rattle.rules.specs.Labels.{block_of};
ghost use Rattle.rules.specs.Machine.{live_count, view};
ghost use Rattle.rules.specs.Step.{forward, undo};
ghost use Rattle.masks.specs.Masks.{MasksOf};
ghost use Rattle.places.specs.Places.{Exits, PlacesOf};
ghost use Rattle.step.specs.Ready.{process_at, here_at, Plans};
ghost use Rattle.machine.specs.Outcome.{ended};
ghost use Rattle.plans.specs.Known.{Known, Committed, made_by};

use masks::Masks;
use places::Places;
use rules::{Block, Code};
use standing::Process;
use step::plan::Plan;

// Block b; one that names nothing past the last.
fn block_at(blocks: &[Block], b: usize) -> Block
    ensures { result ≡ block_of blocks.now b }
{
    blocks.get(b).copied().unwrap_or(laws::no_block())
}

// What a forward step of the process of a row would do.
pub fn forward_plan(m: &[u32], blocks: &[Block], places: &Places, row: usize) -> Result<Plan, Code>
    requires { Known blocks.now m.now × (length blocks.now ≤ 128) × (row < live_count m.now) × PlacesOf blocks.now places.now }
    ensures { Plans m.now result (forward blocks.now (view m.now) (process_at m.now row) (here_at m.now row)) }
{
    let here = Process::of_row(m, row).stands;
    let into = places
        .entry_block(here.label, here.stage)
        .unwrap_or(places.count);
    let out = places
        .exit_block(here.label, here.stage)
        .unwrap_or(places.count);
    let block = block_at(blocks, into);
    forward::forward(m, row, into as u32, out as u32, &block)
}

// What an undo of the process of a row would do.
pub fn undo_plan(
    m: &[u32],
    blocks: &[Block],
    places: &Places,
    masks: &Masks,
    row: usize,
) -> Result<Plan, Code>
    requires { Known blocks.now m.now × (length blocks.now ≤ 128) × (row < live_count m.now) × Exits blocks.now places.now × MasksOf blocks.now masks.now }
    ensures { Plans m.now result (undo blocks.now (view m.now) (process_at m.now row) (here_at m.now row)) }
{
    let here = Process::of_row(m, row).stands;
    let out = places
        .exit_block(here.label, here.stage)
        .unwrap_or(places.count);
    let block = block_at(blocks, out);
    undo::undo(m, masks, row, &block)
}

// The plan made, or its refusal handed on with the words as they are.
pub fn finish(m: &mut [u32], plan: Result<Plan, Code>) -> Result<(), Code>
    requires { Committed plan m.old }
    ensures { ended result m.new ≡ made_by plan m.old }
{
    let plan = plan?;
    commit::commit(m, Ok(plan));
    Ok(())
}
