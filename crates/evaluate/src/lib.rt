// Evaluation on a memory of 288 values, the variables and then the cells, read through writes that are pending: so a condition is
// evaluated "on the new memory" before anything is written. Each function's answer is rules' (Leaf.antt).
#![tactic(auto)]

ghost use Rattle.std.specs.Prelude.{◌≡◌, ◌<◌, IfOk, length, get_or};
ghost use Rattle.rules.specs.Machine.{memory_words};
ghost use Rattle.rules.specs.Leaf.{tried, cell_place, target_place, operand_value, expression_value};
ghost use Rattle.laws.specs.Fit.{OperandFit, TargetFit, ExpressionFit};
ghost use Rattle.evaluate.specs.Shown.{written};

use rules::{Code, Expression, Operand, Target};

// The words of a memory: its variables and then its cells.
pub const MEMORY_WORDS: usize = 288;

// The first cell's place in the memory, and how many cells there are.
const FIRST_CELL: usize = 32;

const CELLS: u32 = 256;

// At most two writes, each a place and the value that it is to hold.
#[derive(Clone, Copy)]
pub enum Writes {
    Nothing,
    One(usize, u32),
    Two(usize, u32, usize, u32),
}

// The value that a place holds once the writes are made.
#[tactic(auto, unfolding(crate::specs::Shown::written))]
pub fn value_at(memory: &[u32], writes: Writes, place: usize) -> u32
    requires { place < length memory.now }
    ensures { result ≡ get_or (written writes memory.now) place 0 }
{
    match writes {
        Writes::One(at, value) if place == at => value,
        Writes::Two(_, _, second, other) if place == second => other,
        Writes::Two(first, value, _, _) if place == first => value,
        _ => memory[place],
    }
}

// Where M[x] lies; it lies in the memory.
#[tactic(auto, unfolding(rules::specs::Base::pick, rules::specs::Leaf::cell_place))]
fn cell_place(memory: &[u32; MEMORY_WORDS], writes: Writes, x: u8) -> Result<usize, Code>
    requires { x < 32 }
    ensures shown { tried result ≡ cell_place (written writes memory.now) x }
    ensures inside { IfOk result (λ at. at < memory_words) }
{
    let address = value_at(memory, writes, usize::from(x));
    if address < CELLS {
        Ok(FIRST_CELL + address as usize)
    } else {
        Err(Code::Address)
    }
}

// Where an update or an exchange writes, which is in the memory; no writes are pending then.
#[tactic(auto, unfolding(rules::specs::Leaf::target_place, crate::specs::Shown::written))]
pub fn target_place(memory: &[u32; MEMORY_WORDS], a: Target) -> Result<usize, Code>
    requires { TargetFit a }
    ensures shown { tried result ≡ target_place memory.now a }
    ensures inside { IfOk result (λ at. at < memory_words) }
{
    match a {
        Target::Variable(x) => Ok(usize::from(x)),
        Target::Cell(x) => cell_place(memory, Writes::Nothing, x),
    }
}

#[tactic(auto, unfolding(rules::specs::Leaf::after, rules::specs::Leaf::operand_value))]
fn operand(memory: &[u32; MEMORY_WORDS], writes: Writes, a: Operand) -> Result<u32, Code>
    requires { OperandFit a }
    ensures { tried result ≡ operand_value (written writes memory.now) a }
{
    match a {
        Operand::Constant(v) => Ok(v),
        Operand::Variable(x) => Ok(value_at(memory, writes, usize::from(x))),
        Operand::Cell(x) => {
            let at = cell_place(memory, writes, x)?;
            Ok(value_at(memory, writes, at))
        }
    }
}

// Of two operands both are evaluated; the first met refusal is the first side's.
#[tactic(auto, unfolding(rules::specs::Leaf::after, rules::specs::Leaf::expression_value))]
pub fn expression(memory: &[u32; MEMORY_WORDS], writes: Writes, e: Expression) -> Result<u32, Code>
    requires { ExpressionFit e }
    ensures { tried result ≡ expression_value (written writes memory.now) e }
{
    match e {
        Expression::Plain(a) => operand(memory, writes, a),
        Expression::Not(a) => Ok(value::negated(operand(memory, writes, a)?)),
        Expression::Two(operator, a, b) => {
            let v = operand(memory, writes, a)?;
            let w = operand(memory, writes, b)?;
            Ok(value::applied(operator, v, w))
        }
    }
}
