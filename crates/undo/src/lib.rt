// The plan of an undo, document 01: 21 at stage begin, 20, 27, then of a fork where the process has children, else of a merge or of
// a leaf's step of the block whose exit holds its place.
#![tactic(auto)]

ghost use Rattle.std.specs.Prelude.{◌≡◌, List, ℕ, ◌<◌, IfSome, is_none, length};
ghost use Rattle.rules.specs.Labels.{block_of};
ghost use Rattle.rules.specs.Machine.{view, children};
ghost use Rattle.rules.specs.Fits.{exit_block};
ghost use Rattle.rules.specs.Cause.{holds};
ghost use Rattle.rules.specs.Leaf.{leaf_undo};
ghost use Rattle.rules.specs.Step as Rules;
ghost use Rattle.rules.specs.declared.Instruction.{Instruction};
ghost use Rattle.laws.specs.Fit.{BlockFit, NamesFit};
ghost use Rattle.masks.specs.Masks.{MasksOf};
ghost use Rattle.step.specs.Ready.{process_at, here_at, Ready, Apt, Plans};
ghost use Rattle.step.specs.History.{NewestAt};
ghost use Rattle.undo.specs.Freed.{BlocksBelow};

use leaf::place::Side;
use leaf::plan::Move;
use masks::Masks;
use rules::{Block, Code, Names, Place};
use standing::Process;
use step::plan::Plan;

// The place of the newest entry of p that the graph does not hold; nothing where it holds it, or p has none.
fn newest_free(m: &[u32], masks: &Masks, p: u32) -> Option<usize>
    requires { BlocksBelow m.now 128 }
    ensures newest { IfSome result (λ i. NewestAt (view m.now).history p i) }
    ensures free { (program : List Block) → MasksOf program masks.now → BlocksBelow m.now (length program)
        → holds program (view m.now).history p ≡ is_none result }
{
    cause::newest::newest(m, p).filter(|entry| !cause::held::held(m, masks, *entry))
}

// The undo of a leaf's step.
fn leaf(m: &[u32], row: usize, block: &Block, entry: usize) -> Result<Plan, Code>
    requires { Ready m.now row × BlockFit block.now × NewestAt (view m.now).history (process_at m.now row) entry }
    ensures { Plans m.now result (Rules.undo_leaf (view m.now) (process_at m.now row) (leaf_undo (view m.now).memory (here_at m.now row) block.now)) }
{
    let here = Process::of_row(m, row).stands;
    let Move { to, writes } = leaf::plan::undo(m, here, block)?;
    Ok(Plan::UndoLeaf {
        row,
        to,
        writes,
        entry,
    })
}

// The undo of a merge: there must be room for the children's rows.
fn merge(m: &[u32], row: usize, names: Names, entry: usize) -> Result<Plan, Code>
    requires { Ready m.now row × NamesFit names × (process_at m.now row < 268435456) × NewestAt (view m.now).history (process_at m.now row) entry }
    ensures { (program : List Block) (b : ℕ) → (block_of program b).instruction ≡ Instruction.Call names
        → Plans m.now result (Rules.undo_merge program (view m.now) (process_at m.now row) b) }
{
    let first = family::room(m, Process::of_row(m, row).identifier, names.count)?;
    Ok(Plan::UndoMerge {
        row,
        names,
        first,
        entry,
    })
}

// The undo of a process that has no children.
fn childless(m: &[u32], row: usize, block: &Block, entry: usize) -> Result<Plan, Code>
    requires { Ready m.now row × Apt m.now row block.now × NewestAt (view m.now).history (process_at m.now row) entry }
    ensures { (program : List Block) (b : ℕ) → block_of program b ≡ block.now
        → Plans m.now result (Rules.undo_childless program (view m.now) (process_at m.now row) (here_at m.now row) b) }
{
    match step::call::call_of(block.instruction) {
        Some(names) => merge(m, row, names, entry),
        None => leaf(m, row, block, entry),
    }
}

// The undo of a fork: the process goes back to the entry label, and its children, all at begin, go.
fn fork(m: &[u32], row: usize, block: &Block, count: usize, entry: usize) -> Result<Plan, Code>
    requires { Ready m.now row × BlockFit block.now × (count ≡ length (children (view m.now).rows (process_at m.now row)))
        × NewestAt (view m.now).history (process_at m.now row) entry }
    ensures { (program : List Block) (b : ℕ) → block_of program b ≡ block.now
        → Plans m.now result (Rules.undo_fork program (view m.now) (process_at m.now row) b) }
{
    let first = family::first_child(m, Process::of_row(m, row).identifier);
    let to = leaf::place::place_on(m, Side::Entry(block.entry))?;
    Ok(Plan::UndoFork {
        row,
        to,
        first,
        count,
        entry,
    })
}

// `block` is the block whose exit holds the place of the row's process; the masks are those of all blocks.
pub fn undo(m: &[u32], masks: &Masks, row: usize, block: &Block) -> Result<Plan, Code>
    requires { Ready m.now row × Apt m.now row block.now × BlocksBelow m.now 128 }
    ensures { (program : List Block) → MasksOf program masks.now → BlocksBelow m.now (length program)
        → block_of program (exit_block program (here_at m.now row)) ≡ block.now
        → Plans m.now result (Rules.undo program (view m.now) (process_at m.now row) (here_at m.now row)) }
{
    let process = Process::of_row(m, row);
    let p = process.identifier;
    if process.stands.stage == Place::BEGIN {
        return Err(Code::Stage);
    }
    if !family::children_at(m, p, Place::BEGIN) {
        return Err(Code::Children);
    }
    let entry = newest_free(m, masks, p).ok_or(Code::Held)?;
    let count = family::child_count(m, p);
    if count == 0 {
        return childless(m, row, block, entry);
    }
    fork(m, row, block, count, entry)
}
