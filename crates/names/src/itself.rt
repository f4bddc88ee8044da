// Code 7: whether an update or an exchange names what it writes, by the resources that its parts name.
ghost use Rattle.std.specs.Prelude.{◌≡◌};
ghost use Rattle.rules.specs.Names.{target_resource};
ghost use Rattle.rules.specs.Read.{updates_itself, exchanges_itself};

use crate::{HEAP, Part};
use rules::{Expression, Target};

// What a target writes: its variable, or the whole heap as one.
fn target_resource(t: Target) -> u8
    ensures { result ≡ target_resource t }
{
    match t {
        Target::Variable(x) => x,
        Target::Cell(_) => HEAP,
    }
}

// An update by an expression that names what the update writes.
#[tactic(auto, unfolding(rules::specs::Read::updates_itself))]
pub fn updates_itself(t: Target, e: Expression) -> bool
    ensures { result ≡ updates_itself t e }
{
    e.names(target_resource(t))
}

// An exchange whose second target names the first's variable.
#[tactic(auto, unfolding(rules::specs::Read::exchanges_itself))]
pub fn exchanges_itself(a: Target, b: Target) -> bool
    ensures { result ≡ exchanges_itself a b }
{
    match a {
        Target::Variable(x) | Target::Cell(x) => b.names(x),
    }
}
