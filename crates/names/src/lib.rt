// What a block names: the variables of its parts, and the heap with each cell.
#![tactic(auto)]

pub mod itself;

ghost use Rattle.std.specs.Prelude.{◌≡◌, ◌||◌, ℕ, Bool, eqb};
ghost use Rattle.rules.specs.Names.{heap, operand_names, target_names, expression_names, entry_names, exit_names, other_names, block_names};

use rules::{Block, Entry, Exit, Expression, Instruction, Operand, Target};

// The heap goes by the number after the last variable's.
const HEAP: u8 = 32;

// A part of a block, which may name a variable x, or the heap.
trait Part: Copy {
    ghost names: { Self → ℕ → Bool };

    fn names(self, x: u8) -> bool
        ensures { result ≡ names self x };
}

// M[y] names y and the heap.
fn cell_names(y: u8, x: u8) -> bool
    ensures { result ≡ eqb y x || eqb heap x }
{
    y == x || HEAP == x
}

// A constant names nothing, x names x.
impl Part for Operand {
    ghost names = { operand_names };

    fn names(self, x: u8) -> bool {
        match self {
            Operand::Constant(_) => false,
            Operand::Variable(y) => y == x,
            Operand::Cell(y) => cell_names(y, x),
        }
    }
}

impl Part for Target {
    ghost names = { target_names };

    fn names(self, x: u8) -> bool {
        match self {
            Target::Variable(y) => y == x,
            Target::Cell(y) => cell_names(y, x),
        }
    }
}

impl Part for Expression {
    ghost names = { expression_names };

    fn names(self, x: u8) -> bool {
        match self {
            Expression::Plain(a) | Expression::Not(a) => a.names(x),
            Expression::Two(_, a, b) => a.names(x) || b.names(x),
        }
    }
}

impl Part for Entry {
    ghost names = { entry_names };

    fn names(self, x: u8) -> bool {
        match self {
            Entry::Either(_, _, e) => e.names(x),
            _ => false,
        }
    }
}

impl Part for Exit {
    ghost names = { exit_names };

    fn names(self, x: u8) -> bool {
        match self {
            Exit::Either(e, _, _) => e.names(x),
            _ => false,
        }
    }
}

// V and P apart.
impl Part for Instruction {
    ghost names = { other_names };

    fn names(self, x: u8) -> bool {
        match self {
            Instruction::Update(_, a, e) => a.names(x) || e.names(x),
            Instruction::Exchange(a, b) => a.names(x) || b.names(x),
            Instruction::Assert(e) => e.names(x),
            _ => false,
        }
    }
}

// A block names x elsewhere than in V or P.
#[tactic(auto, unfolding(rules::specs::Names::block_names))]
pub fn block_names(b: Block, x: u8) -> bool
    ensures { result ≡ block_names b x }
{
    b.entry.names(x) || b.instruction.names(x) || b.exit.names(x)
}
