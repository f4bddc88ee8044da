// Masks of resources: bit x is variable x, bit 32 the heap. Each function's mask has just the bits of what rules' Names says.
#![tactic(auto, using(crate::proofs::Bits::mask_none, crate::proofs::Bits::mask_single))]

ghost use Rattle.std.specs.Prelude.{◌<◌};
ghost use Rattle.rules.specs.Names.{operand_names, target_names, expression_names, entry_names, exit_names, instruction_writes, block_reads, block_writes};
ghost use Rattle.laws.specs.Fit.{OperandFit, TargetFit, ExpressionFit, EntryFit, ExitFit, InstructionFit, BlockFit};
ghost use Rattle.masks.specs.Mask.{Mask, single, instruction_names, target_writes};

use rules::{Block, Entry, Exit, Expression, Instruction, Operand, Target};

// The heap's bit.
const HEAP: u64 = 1 << 32;

// The bit of a variable.
fn bit(x: u8) -> u64
    requires { x < 32 }
    ensures { Mask (single x) result }
{
    1u64 << x
}

// A cell names its variable and the heap.
fn cell(x: u8) -> u64
    requires { x < 32 }
    ensures { Mask (operand_names (Operand.Cell x)) result }
{
    bit(x) | HEAP
}

fn operand(a: Operand) -> u64
    requires { OperandFit a }
    ensures { Mask (operand_names a) result }
{
    match a {
        Operand::Constant(_) => 0,
        Operand::Variable(x) => bit(x),
        Operand::Cell(x) => cell(x),
    }
}

fn target(a: Target) -> u64
    requires { TargetFit a }
    ensures { Mask (target_names a) result }
{
    match a {
        Target::Variable(x) => bit(x),
        Target::Cell(x) => cell(x),
    }
}

// What a write to the target changes.
fn changed(a: Target) -> u64
    requires { TargetFit a }
    ensures { Mask (target_writes a) result }
{
    match a {
        Target::Variable(x) => bit(x),
        Target::Cell(_) => HEAP,
    }
}

fn expression(e: Expression) -> u64
    requires { ExpressionFit e }
    ensures { Mask (expression_names e) result }
{
    match e {
        Expression::Plain(a) | Expression::Not(a) => operand(a),
        Expression::Two(_, a, b) => operand(a) | operand(b),
    }
}

fn entry(e: Entry) -> u64
    requires { EntryFit e }
    ensures { Mask (entry_names e) result }
{
    match e {
        Entry::Either(_, _, x) => expression(x),
        Entry::From(_) | Entry::Begin(_) => 0,
    }
}

fn exit(e: Exit) -> u64
    requires { ExitFit e }
    ensures { Mask (exit_names e) result }
{
    match e {
        Exit::Either(x, _, _) => expression(x),
        Exit::To(_) | Exit::End(_) => 0,
    }
}

// All that an instruction names.
fn instruction(i: Instruction) -> u64
    requires { InstructionFit i }
    ensures { Mask (instruction_names i) result }
{
    match i {
        Instruction::Update(_, a, e) => target(a) | expression(e),
        Instruction::Exchange(a, b) => target(a) | target(b),
        Instruction::OpV(x) | Instruction::OpP(x) => bit(x),
        Instruction::Assert(e) => expression(e),
        Instruction::Skip | Instruction::Call(_) => 0,
    }
}

// What an instruction changes.
fn change(i: Instruction) -> u64
    requires { InstructionFit i }
    ensures { Mask (instruction_writes i) result }
{
    match i {
        Instruction::Update(_, a, _) => changed(a),
        Instruction::Exchange(a, b) => changed(a) | changed(b),
        Instruction::OpV(x) | Instruction::OpP(x) => bit(x),
        Instruction::Assert(_) | Instruction::Skip | Instruction::Call(_) => 0,
    }
}

// What a block reads.
pub fn reads(b: &Block) -> u64
    requires { BlockFit b.now }
    ensures { Mask (block_reads b.now) result }
{
    entry(b.entry) | instruction(b.instruction) | exit(b.exit)
}

// What a block writes.
#[tactic(auto, unfolding(rules::specs::Names::block_writes))]
pub fn writes(b: &Block) -> u64
    requires { BlockFit b.now }
    ensures { Mask (block_writes b.now) result }
{
    change(b.instruction)
}
