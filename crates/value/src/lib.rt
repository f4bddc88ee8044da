// The operators on words, each equal to its definition in rules: + and - wrap, ^ works on the bits, comparisons are signed.
// That these are the signed 32-bit operators of document 01 is the theorem `signed-values`, in proofs/.
#![tactic(auto)]

ghost use Rattle.std.specs.Prelude.{◌≡◌};
ghost use Rattle.rules.specs.Value.{truth, negated, applied, changed};

use rules::{Change, Operator};

// Zero is false, all else true.
fn truth(a: u32) -> bool
    ensures { result ≡ truth a }
{
    a != 0
}

// !a
#[tactic(auto, unfolding(rules::specs::Value::negated))]
pub fn negated(a: u32) -> u32
    ensures { result ≡ negated a }
{
    u32::from(!truth(a))
}

// a and b under an operator; both sides have been evaluated. What is true gives 1, what is false 0.
#[tactic(auto, unfolding(rules::specs::Base::pick, rules::specs::Value::signed, rules::specs::Value::less, rules::specs::Value::at_most))]
pub fn applied(operator: Operator, a: u32, b: u32) -> u32
    ensures { result ≡ applied operator a b }
{
    let (signed_a, signed_b) = (a.cast_signed(), b.cast_signed());
    match operator {
        Operator::Add => a.wrapping_add(b),
        Operator::Subtract => a.wrapping_sub(b),
        Operator::Xor => a ^ b,
        Operator::Equal => u32::from(a == b),
        Operator::Unequal => u32::from(a != b),
        Operator::Less => u32::from(signed_a < signed_b),
        Operator::AtMost => u32::from(signed_a <= signed_b),
        Operator::Greater => u32::from(signed_a > signed_b),
        Operator::AtLeast => u32::from(signed_a >= signed_b),
        Operator::And => u32::from(truth(a) && truth(b)),
        Operator::Or => u32::from(truth(a) || truth(b)),
    }
}

// a after += b, -= b, ^= b.
pub fn changed(change: Change, a: u32, b: u32) -> u32
    ensures { result ≡ changed change a b }
{
    match change {
        Change::Add => a.wrapping_add(b),
        Change::Subtract => a.wrapping_sub(b),
        Change::Xor => a ^ b,
    }
}
