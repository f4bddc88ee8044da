// Expressions: one operand plain, a not, or one of eleven operators over two operands.

ghost use Rattle.std.specs.Prelude.{◌≡◌};
ghost use Rattle.rules.specs.Format.{operator_of};
ghost use Rattle.rules.specs.Read.{expression_at};
ghost use Rattle.laws.specs.Found.{given};
ghost use Rattle.image.specs.Shown.{shown};

use crate::{Cursor, Fault};
use rules::{Code, Expression, Operator};

// Stays: an impl of `TryFrom<u8>` for Operator may only stand in the crate of the type.
#[tactic(auto, unfolding(rules::specs::Base::pick, rules::specs::Format::operator_of))]
fn operator_of(kind: u8) -> Option<Operator>
    ensures { given result ≡ operator_of kind }
{
    match kind {
        0x12 => Some(Operator::Add),
        0x13 => Some(Operator::Subtract),
        0x14 => Some(Operator::Xor),
        0x15 => Some(Operator::Equal),
        0x16 => Some(Operator::Unequal),
        0x17 => Some(Operator::Less),
        0x18 => Some(Operator::AtMost),
        0x19 => Some(Operator::Greater),
        0x1A => Some(Operator::AtLeast),
        0x1B => Some(Operator::And),
        0x1C => Some(Operator::Or),
        _ => None,
    }
}

impl Cursor {
    #[tactic(auto, unfolding(rules::specs::Base::pick, rules::specs::Read::next, rules::specs::Read::follows, rules::specs::Read::two_at, rules::specs::Read::expression_at))]
    pub fn expression(self, s: &[u8]) -> Result<(Expression, Cursor), Fault>
        ensures { shown result ≡ expression_at s.now self.at }
    {
        let kind = self.kind(s)?;
        let past = Cursor { at: self.at + 1 };
        match kind {
            0x10 => past
                .operand(s)
                .map(|(a, next)| (Expression::Plain(a), next)),
            0x11 => past.operand(s).map(|(a, next)| (Expression::Not(a), next)),
            _ => {
                let operator = operator_of(kind).ok_or(self.fault(Code::Kind))?;
                let (a, second) = past.operand(s)?;
                let (b, next) = second.operand(s)?;
                Ok((Expression::Two(operator, a, b), next))
            }
        }
    }
}
