// The plan of a forward step, document 01: 21 at stage end, 20, 26, then a merge where the process has children, else a fork or a
// leaf's step of the block whose entry holds its place.
#![tactic(auto)]

ghost use Rattle.std.specs.Prelude.{◌≡◌, ◌<◌, List};
ghost use Rattle.rules.specs.Labels.{block_of};
ghost use Rattle.rules.specs.Machine.{view, history_count};
ghost use Rattle.rules.specs.Fits.{entry_block, exit_block};
ghost use Rattle.rules.specs.Leaf.{leaf_forward};
ghost use Rattle.rules.specs.Step as Rules;
ghost use Rattle.rules.specs.declared.Instruction.{Instruction};
ghost use Rattle.laws.specs.Fit.{BlockFit, ExitFit, NamesFit};
ghost use Rattle.step.specs.Ready.{process_at, here_at, Ready, Apt, Plans};

use leaf::place::Side;
use leaf::plan::Move;
use machine::MOST_KEPT;
use rules::{Block, Code, Exit, Names, Place};
use standing::Process;
use step::plan::Plan;

// A leaf's step.
fn leaf(m: &[u32], row: usize, into: u32, block: &Block) -> Result<Plan, Code>
    requires { Ready m.now row × BlockFit block.now × (history_count m.now < 4096) }
    ensures { Plans m.now result (Rules.leaf_step (view m.now) (process_at m.now row) into (leaf_forward (view m.now).memory (here_at m.now row) block.now)) }
{
    let here = Process::of_row(m, row).stands;
    let Move { to, writes } = leaf::plan::forward(m, here, block)?;
    Ok(Plan::Leaf {
        row,
        to,
        writes,
        block: into,
    })
}

// A fork: there must be room for the children's rows.
fn fork(m: &[u32], row: usize, into: u32, names: Names, exit: Exit) -> Result<Plan, Code>
    requires { Ready m.now row × NamesFit names × ExitFit exit × (process_at m.now row < 268435456) × (history_count m.now < 4096) }
    ensures { (program : List Block) → (block_of program into).instruction ≡ Instruction.Call names → (block_of program into).exit ≡ exit
        → Plans m.now result (Rules.fork program (view m.now) (process_at m.now row) into) }
{
    let first = family::room(m, Process::of_row(m, row).identifier, names.count)?;
    let to = leaf::place::place_on(m, Side::Exit(exit))?;
    Ok(Plan::Fork {
        row,
        to,
        names,
        block: into,
        first,
    })
}

// The step of a process that has no children.
fn childless(m: &[u32], row: usize, into: u32, block: &Block) -> Result<Plan, Code>
    requires { Ready m.now row × Apt m.now row block.now × (history_count m.now < 4096) }
    ensures { (program : List Block) → block_of program into ≡ block.now
        → Plans m.now result (Rules.forward_childless program (view m.now) (process_at m.now row) (here_at m.now row) into) }
{
    match step::call::call_of(block.instruction) {
        Some(names) => fork(m, row, into, names, block.exit),
        None => leaf(m, row, into, block),
    }
}

// `into` is the block whose entry holds the place of the row's process, and `block` that block; `out` the one whose exit does.
pub fn forward(m: &[u32], row: usize, into: u32, out: u32, block: &Block) -> Result<Plan, Code>
    requires { Ready m.now row × Apt m.now row block.now }
    ensures { (program : List Block) → into ≡ entry_block program (here_at m.now row) → out ≡ exit_block program (here_at m.now row)
        → block_of program into ≡ block.now → Plans m.now result (Rules.forward program (view m.now) (process_at m.now row) (here_at m.now row)) }
{
    let process = Process::of_row(m, row);
    let p = process.identifier;
    if process.stands.stage == Place::END {
        return Err(Code::Stage);
    }
    if !family::children_at(m, p, Place::END) {
        return Err(Code::Children);
    }
    if MOST_KEPT <= m[1] {
        return Err(Code::HistoryFull);
    }
    let count = family::child_count(m, p);
    if count == 0 {
        return childless(m, row, into, block);
    }
    Ok(Plan::Merge {
        row,
        block: out,
        first: family::first_child(m, p),
        count,
    })
}
