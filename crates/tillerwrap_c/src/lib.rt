// The functions that include/tillerwrap.h declares, for the archive that C links. Each hands its arguments to the function of
// crate tillerwrap of the same name and promises what that one promises.
#![tactic(auto)]

ghost use Rattle.std.specs.Prelude.{◌≡◌};
ghost use Rattle.rules.specs.Judge.{judgement, numbers};
ghost use Rattle.rules.specs.List.{list_bytes};
ghost use Rattle.rules.specs.Words.{start_bytes, step_bytes};
ghost use Rattle.runtime.specs.Outcome.{outcome_of};

use rules::{Answer, Judged, Row};

// Judges any bytes.
#[unsafe(no_mangle)]
pub extern "C" fn tillerwrap_judge(image: &[u8]) -> Judged
    ensures { result ≡ numbers (judgement image.now) }
{
    tillerwrap::tillerwrap_judge(image)
}

// Starts a machine: the lent bytes are all written, or on a refusal left as they are.
#[unsafe(no_mangle)]
pub extern "C" fn tillerwrap_start(image: &[u8], first: &[u8], machine: &mut [u8]) -> Answer
    ensures { outcome_of result machine.new ≡ start_bytes image.now first.now machine.old }
{
    tillerwrap::tillerwrap_start(image, first, machine)
}

// One forward step or one undo of a process: the lent bytes are those of the machine after it, or on a refusal left as they are.
#[unsafe(no_mangle)]
pub extern "C" fn tillerwrap_step(
    image: &[u8],
    process: u32,
    direction: u32,
    machine: &mut [u8],
) -> Answer
    ensures { outcome_of result machine.new ≡ step_bytes image.now machine.old process direction }
{
    tillerwrap::tillerwrap_step(image, process, direction, machine)
}

// The list: where the code is 0 all 64 rows are written, a row a live process and the rest zero; else they stay as they are.
#[unsafe(no_mangle)]
pub extern "C" fn tillerwrap_list(image: &[u8], machine: &[u8], rows: &mut [Row]) -> Answer
    ensures { outcome_of result rows.new ≡ list_bytes image.now machine.now rows.old }
{
    tillerwrap::tillerwrap_list(image, machine, rows)
}
