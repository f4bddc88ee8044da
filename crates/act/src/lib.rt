// What an instruction does to a memory, as writes that are pending. An undo acts by the inverse instruction. Everything here only reads.
#![tactic(auto)]

ghost use Rattle.std.specs.Prelude.{◌≡◌, ◌<◌, IfOk};
ghost use Rattle.rules.specs.Leaf.{update, exchange, semaphore_step, act, inverse_change, inverse};
ghost use Rattle.laws.specs.Fit.{TargetFit, ExpressionFit, InstructionFit};
ghost use Rattle.evaluate.specs.Shown.{WritesFit};
ghost use Rattle.act.specs.Acted.{acted, assertion};

use evaluate::{MEMORY_WORDS, Writes};
use rules::{Change, Code, Expression, Instruction, Target};

#[tactic(auto, unfolding(rules::specs::Leaf::after, rules::specs::Leaf::update, evaluate::specs::Shown::written))]
fn update(
    memory: &[u32; MEMORY_WORDS],
    change: Change,
    a: Target,
    e: Expression,
) -> Result<Writes, Code>
    requires { TargetFit a × ExpressionFit e }
    ensures shown { acted memory.now result ≡ update memory.now change a e }
    ensures inside { IfOk result WritesFit }
{
    let at = evaluate::target_place(memory, a)?;
    let v = evaluate::expression(memory, Writes::Nothing, e)?;
    Ok(Writes::One(at, value::changed(change, memory[at], v)))
}

#[tactic(auto, unfolding(rules::specs::Leaf::after, rules::specs::Leaf::exchange, evaluate::specs::Shown::written))]
fn exchange(memory: &[u32; MEMORY_WORDS], a: Target, b: Target) -> Result<Writes, Code>
    requires { TargetFit a × TargetFit b }
    ensures shown { acted memory.now result ≡ exchange memory.now a b }
    ensures inside { IfOk result WritesFit }
{
    let at = evaluate::target_place(memory, a)?;
    let to = evaluate::target_place(memory, b)?;
    Ok(Writes::Two(at, memory[to], to, memory[at]))
}

// V or P: the variable must hold exactly the one number, and then holds the other.
#[tactic(auto, unfolding(rules::specs::Base::pick, rules::specs::Leaf::semaphore_step, evaluate::specs::Shown::written))]
fn semaphore_step(
    memory: &[u32; MEMORY_WORDS],
    x: u8,
    needs: u32,
    leaves: u32,
) -> Result<Writes, Code>
    requires { x < 32 }
    ensures shown { acted memory.now result ≡ semaphore_step memory.now x needs leaves }
    ensures inside { IfOk result WritesFit }
{
    let at = usize::from(x);
    if memory[at] == needs {
        Ok(Writes::One(at, leaves))
    } else {
        Err(Code::Semaphore)
    }
}

#[tactic(auto, unfolding(rules::specs::Base::pick, rules::specs::Leaf::after, evaluate::specs::Shown::written))]
fn assertion(memory: &[u32; MEMORY_WORDS], e: Expression) -> Result<Writes, Code>
    requires { ExpressionFit e }
    ensures shown { acted memory.now result ≡ assertion memory.now e }
    ensures inside { IfOk result WritesFit }
{
    if evaluate::expression(memory, Writes::Nothing, e)? == 0 {
        Err(Code::Assertion)
    } else {
        Ok(Writes::Nothing)
    }
}

#[tactic(auto, unfolding(rules::specs::Leaf::act, evaluate::specs::Shown::written))]
pub fn act(memory: &[u32; MEMORY_WORDS], instruction: Instruction) -> Result<Writes, Code>
    requires { InstructionFit instruction }
    ensures shown { acted memory.now result ≡ act memory.now instruction }
    ensures inside { IfOk result WritesFit }
{
    match instruction {
        Instruction::Update(change, a, e) => update(memory, change, a, e),
        Instruction::Exchange(a, b) => exchange(memory, a, b),
        Instruction::OpV(x) => semaphore_step(memory, x, 0, 1),
        Instruction::OpP(x) => semaphore_step(memory, x, 1, 0),
        Instruction::Assert(e) => assertion(memory, e),
        Instruction::Skip | Instruction::Call(_) => Ok(Writes::Nothing),
    }
}

fn inverse_change(change: Change) -> Change
    ensures { result ≡ inverse_change change }
{
    match change {
        Change::Add => Change::Subtract,
        Change::Subtract => Change::Add,
        Change::Xor => Change::Xor,
    }
}

// V and P trade places, and so do += and -=.
pub fn inverse(instruction: Instruction) -> Instruction
    ensures { result ≡ inverse instruction }
{
    match instruction {
        Instruction::Update(change, a, e) => Instruction::Update(inverse_change(change), a, e),
        Instruction::OpV(x) => Instruction::OpP(x),
        Instruction::OpP(x) => Instruction::OpV(x),
        _ => instruction,
    }
}
