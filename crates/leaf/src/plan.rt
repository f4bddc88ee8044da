// The step of a leaf: where the process goes and what is written, or the first refusal met.
ghost use Rattle.std.specs.Prelude.{◌≡◌, IfOk, length};
ghost use Rattle.rules.specs.Machine.{machine_words, view};
ghost use Rattle.rules.specs.Leaf.{leaf_forward, leaf_undo};
ghost use Rattle.laws.specs.Fit.{InstructionFit, BlockFit};
ghost use Rattle.evaluate.specs.Shown.{WritesFit, tried_as};
ghost use Rattle.leaf.specs.Moved.{moved};
ghost use Rattle.leaf.specs.Side.{SideFit, leaf_step};

use super::place::{Side, memory_of};
use evaluate::Writes;
use machine::MEMORY_WORDS;
use rules::{Block, Code, Instruction, Place};

// Where the process then stands, and what is written.
#[derive(Clone, Copy)]
pub struct Move {
    pub to: Place,
    pub writes: Writes,
}

// The side that the step comes in by must give the present place; then the instruction acts; then the side that the step leaves by
// gives the next place, on the new memory.
#[tactic(auto, unfolding(rules::specs::Base::pick, rules::specs::Leaf::after, rules::specs::Leaf::present, evaluate::specs::Shown::written))]
fn step(
    memory: &[u32; MEMORY_WORDS],
    here: Place,
    from: Side,
    instruction: Instruction,
    to: Side,
) -> Result<Move, Code>
    requires { SideFit from × InstructionFit instruction × SideFit to }
    ensures shown { tried_as (moved memory.now) result ≡ leaf_step memory.now here from instruction to }
    ensures inside { IfOk result (λ m. WritesFit m.writes) }
{
    let given = super::place::side_place(memory, Writes::Nothing, from)?;
    if given != here {
        return Err(Code::OtherLabel);
    }
    let writes = act::act(memory, instruction)?;
    let to = super::place::side_place(memory, writes, to)?;
    Ok(Move { to, writes })
}

// The entry's condition is evaluated on the present memory, the exit's on the new one.
#[tactic(auto, unfolding(rules::specs::Machine::view, rules::specs::Leaf::leaf_forward, crate::specs::Side::side_place))]
pub fn forward(m: &[u32], here: Place, block: &Block) -> Result<Move, Code>
    requires { (length m.now ≡ machine_words) × BlockFit block.now }
    ensures shown { tried_as (moved (view m.now).memory) result ≡ leaf_forward (view m.now).memory here block.now }
    ensures inside { IfOk result (λ m. WritesFit m.writes) }
{
    let from = Side::Entry(block.entry);
    let to = Side::Exit(block.exit);
    step(memory_of(m), here, from, block.instruction, to)
}

// The exit's condition is evaluated on the present memory, before the instruction is inverted; the entry's on the earlier one.
#[tactic(auto, unfolding(rules::specs::Machine::view, rules::specs::Leaf::leaf_undo, crate::specs::Side::side_place))]
pub fn undo(m: &[u32], here: Place, block: &Block) -> Result<Move, Code>
    requires { (length m.now ≡ machine_words) × BlockFit block.now }
    ensures shown { tried_as (moved (view m.now).memory) result ≡ leaf_undo (view m.now).memory here block.now }
    ensures inside { IfOk result (λ m. WritesFit m.writes) }
{
    let from = Side::Exit(block.exit);
    let to = Side::Entry(block.entry);
    let inverse = act::inverse(block.instruction);
    step(memory_of(m), here, from, inverse, to)
}
