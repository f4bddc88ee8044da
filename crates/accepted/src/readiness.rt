// The readiness answers, document 01, "The list": for each live process the code that a forward step would answer, and that an undo
// would. They only read.
ghost use Rattle.std.specs.Prelude.{◌≡◌, ◌<◌, ◌≤◌, List, ℕ, length, MatchResult};
ghost use Rattle.rules.specs.Codes.{number};
ghost use Rattle.rules.specs.Machine.{Machine, live_count, view};
ghost use Rattle.rules.specs.Step.{forward, undo};
ghost use Rattle.rules.specs.Leaf.{Tried};
ghost use Rattle.rules.specs.List.{code_of as List·code_of, rows_of, list_in};
ghost use Rattle.theorems.specs.Program.{Sound};
ghost use Rattle.masks.specs.Masks.{MasksOf};
ghost use Rattle.places.specs.Places.{PlacesOf};
ghost use Rattle.step.specs.Ready.{process_at, here_at, Plans};
ghost use Rattle.plans.specs.Known.{Known};
ghost use Rattle.rules.specs.declared.Row as Declared;
ghost use Rattle.accepted.specs.Listed.{listed};

use masks::Masks;
use places::Places;
use rules::{Block, Code, Refused, Row};
use standing::Process;
use step::plan::Plan;

// The code that a step by the plan answers: 0 by any plan, else its refusal's.
fn code_of(plan: Result<Plan, Code>) -> u32
    ensures code { MatchResult plan (λ p. result ≡ 0) (λ code. result ≡ number code) }
    ensures listed { (w : List ℕ) (tried : Tried Machine) → Plans w plan tried → result ≡ List·code_of tried }
{
    match plan {
        Ok(_) => 0,
        Err(code) => code.number(),
    }
}

// The row of the list of the process of a row.
fn row_at(m: &[u32], blocks: &[Block], places: &Places, masks: &Masks, row: usize) -> Row
    requires { Known blocks.now m.now × (length blocks.now ≤ 128) × (row < live_count m.now) × PlacesOf blocks.now places.now × MasksOf blocks.now masks.now }
    ensures { (result.identifier ≡ process_at m.now row)
        × (result.forward ≡ List·code_of (forward blocks.now (view m.now) (process_at m.now row) (here_at m.now row)))
        × (result.undo ≡ List·code_of (undo blocks.now (view m.now) (process_at m.now row) (here_at m.now row))) }
{
    let ahead = plans::forward_plan(m, blocks, places, row);
    let back = plans::undo_plan(m, blocks, places, masks, row);
    Row {
        identifier: Process::of_row(m, row).identifier,
        forward: code_of(ahead),
        undo: code_of(back),
    }
}

// The rows of a machine that fits.
fn rows_of(m: &[u32], blocks: &[Block], places: &Places) -> [Row; 64]
    requires { Known blocks.now m.now × (length blocks.now ≤ 128) × PlacesOf blocks.now places.now }
    ensures { result ≡ rows_of blocks.now (view m.now) }
{
    let masks = Masks::of(blocks);
    let zero = Row {
        identifier: 0,
        forward: 0,
        undo: 0,
    };
    let mut rows = [zero; 64];
    for row in 0..m[0] as usize {
        rows[row] = row_at(m, blocks, places, &masks, row);
    }
    rows
}

// On the blocks of an accepted image, for any words.
pub fn ready_on(m: &[u32], blocks: &[Block]) -> Result<[Row; 64], Refused>
    requires { Sound blocks.now × (length blocks.now ≤ 128) }
    ensures { (lent : List Declared.Row) → length lent ≡ 64 → listed result lent ≡ list_in m.now lent blocks.now }
{
    let places = super::fitting(m, blocks)?;
    Ok(rows_of(m, blocks, &places))
}
