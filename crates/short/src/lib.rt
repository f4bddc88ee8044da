// Short lists of labels: those of one entry, of one exit, of one call.
#![tactic(auto)]

mod few;

ghost use Rattle.std.specs.Prelude.{◌≡◌};
ghost use Rattle.rules.specs.Labels.{entry_labels, exit_labels, begin_labels, end_labels, called_by};
ghost use Rattle.short.specs.Few.{few};

pub use few::Few;
use rules::{Entry, Exit, Instruction};

// The ordinary labels of an entry.
pub fn of_entry(e: Entry) -> Few
    ensures { few result ≡ entry_labels e }
{
    match e {
        Entry::From(l) => Few::one(l),
        Entry::Either(l, m, _) => Few::two(l, m),
        Entry::Begin(_) => Few::none(),
    }
}

// The ordinary labels of an exit.
pub fn of_exit(e: Exit) -> Few
    ensures { few result ≡ exit_labels e }
{
    match e {
        Exit::To(l) => Few::one(l),
        Exit::Either(_, l, m) => Few::two(l, m),
        Exit::End(_) => Few::none(),
    }
}

// The label of a `begin`.
pub fn of_begin(e: Entry) -> Few
    ensures { few result ≡ begin_labels e }
{
    match e {
        Entry::Begin(l) => Few::one(l),
        _ => Few::none(),
    }
}

// The label of an `end`.
pub fn of_end(e: Exit) -> Few
    ensures { few result ≡ end_labels e }
{
    match e {
        Exit::End(l) => Few::one(l),
        _ => Few::none(),
    }
}

// The labels that an instruction calls.
pub fn of_call(i: Instruction) -> Few
    ensures { few result ≡ called_by i }
{
    match i {
        Instruction::Call(n) => Few::first_of(n.labels, usize::from(n.count)),
        _ => Few::none(),
    }
}
