// The commit of a plan: the machine's words become those of the machine that the plan makes, and stay as they are where it is refused.
#![tactic(auto)]

ghost use Rattle.std.specs.Prelude.{◌≡◌, length, IfOk};
ghost use Rattle.rules.specs.Machine.{pack, view};
ghost use Rattle.evaluate.specs.Shown.{WritesFit, tried_as};
ghost use Rattle.step.specs.Planned.{Lent, left, PlanFit, LeafFit, ForkFit, MergeFit, UndoLeafFit, UndoForkFit, UndoMergeFit};
ghost use Rattle.step.specs.Planned.{writes_made, planned, leaf_made, fork_made, merge_made, undo_leaf_made, undo_fork_made, undo_merge_made};

use evaluate::Writes;
use rules::{Code, Names, Place};
use standing::Process;
use step::plan::Plan;

// The pending writes made in the memory.
#[tactic(auto, unfolding(step::specs::Planned::writes_made))]
fn write(m: &mut [u32], writes: Writes)
    requires { (length m.old ≡ 8674) × WritesFit writes }
    ensures { m.new ≡ writes_made writes m.old }
{
    match writes {
        Writes::Nothing => {}
        Writes::One(at, value) => {
            change::write(m, at, value);
        }
        Writes::Two(first, value, second, other) => {
            change::write(m, first, value);
            change::write(m, second, other);
        }
    }
}

fn leaf(m: &mut [u32], row: usize, to: Place, writes: Writes, block: u32)
    requires { Lent m.old × LeafFit (view m.old) row writes }
    ensures { m.new ≡ pack (leaf_made (view m.old) row to writes block) }
{
    let p = Process::of_row(m, row).identifier;
    write(m, writes);
    change::move_row(m, row, to.label, to.stage);
    change::keep(m, p, block);
}

fn fork(m: &mut [u32], row: usize, to: Place, names: Names, block: u32, first: usize)
    requires { Lent m.old × ForkFit (view m.old) row names first }
    ensures { m.new ≡ pack (fork_made (view m.old) row to names block first) }
{
    let p = Process::of_row(m, row).identifier;
    change::move_row(m, row, to.label, to.stage);
    children::insert(m, first, p, Place::BEGIN, names);
    change::keep(m, p, block);
}

fn merge(m: &mut [u32], row: usize, block: u32, first: usize, count: usize)
    requires { Lent m.old × MergeFit (view m.old) row first count }
    ensures { m.new ≡ pack (merge_made (view m.old) row block first count) }
{
    let p = Process::of_row(m, row).identifier;
    change::remove_rows(m, first, count);
    change::keep(m, p, block);
}

fn undo_leaf(m: &mut [u32], row: usize, to: Place, writes: Writes, entry: usize)
    requires { Lent m.old × UndoLeafFit (view m.old) row writes entry }
    ensures { m.new ≡ pack (undo_leaf_made (view m.old) row to writes entry) }
{
    write(m, writes);
    change::move_row(m, row, to.label, to.stage);
    change::close_up(m, entry);
}

fn undo_fork(m: &mut [u32], row: usize, to: Place, first: usize, count: usize, entry: usize)
    requires { Lent m.old × UndoForkFit (view m.old) row first count entry }
    ensures { m.new ≡ pack (undo_fork_made (view m.old) row to first count entry) }
{
    change::move_row(m, row, to.label, to.stage);
    change::remove_rows(m, first, count);
    change::close_up(m, entry);
}

fn undo_merge(m: &mut [u32], row: usize, names: Names, first: usize, entry: usize)
    requires { Lent m.old × UndoMergeFit (view m.old) row names first entry }
    ensures { m.new ≡ pack (undo_merge_made (view m.old) row names first entry) }
{
    let p = Process::of_row(m, row).identifier;
    children::insert(m, first, p, Place::END, names);
    change::close_up(m, entry);
}

#[tactic(auto, unfolding(step::specs::Planned::planned))]
fn make(m: &mut [u32], plan: Plan)
    requires { Lent m.old × PlanFit plan (view m.old) }
    ensures { m.new ≡ pack (planned plan (view m.old)) }
{
    match plan {
        Plan::Leaf {
            row,
            to,
            writes,
            block,
        } => leaf(m, row, to, writes, block),
        Plan::Fork {
            row,
            to,
            names,
            block,
            first,
        } => fork(m, row, to, names, block, first),
        Plan::Merge {
            row,
            block,
            first,
            count,
        } => merge(m, row, block, first, count),
        Plan::UndoLeaf {
            row,
            to,
            writes,
            entry,
        } => undo_leaf(m, row, to, writes, entry),
        Plan::UndoFork {
            row,
            to,
            first,
            count,
            entry,
        } => undo_fork(m, row, to, first, count, entry),
        Plan::UndoMerge {
            row,
            names,
            first,
            entry,
        } => undo_merge(m, row, names, first, entry),
    }
}

// A refusal in a plan's place leaves the words as they are.
pub fn commit(m: &mut [u32], plan: Result<Plan, Code>)
    requires { Lent m.old × IfOk plan (λ p. PlanFit p (view m.old)) }
    ensures { m.new ≡ left (tried_as (λ p. planned p (view m.old)) plan) m.old }
{
    if let Ok(plan) = plan {
        make(m, plan);
    }
}
