// Code 9: a block names, elsewhere than in V or P, a variable that some V or P of the image names.
#![tactic(auto)]

ghost use Rattle.std.specs.Prelude.{◌&&◌, false, ◌≡◌, ℕ, length, get_or};
ghost use Rattle.rules.specs.Base.{some_below};
ghost use Rattle.rules.specs.Format.{variables};
ghost use Rattle.rules.specs.Names.{block_names, semaphore_names};
ghost use Rattle.rules.specs.Labels.{semaphore, bad9, block_of};
ghost use Rattle.laws.specs.Found.{found};
ghost use Rattle.semaphores.specs.Marks.{Marked};

use rules::{Block, Instruction};

// Variables are 0 to 31.
const VARIABLES: u8 = 32;

// The variable of a V or P marked.
fn mark(table: &mut [bool; 256], instruction: Instruction)
    ensures { Marked table.old (semaphore_names instruction) table.new }
{
    if let Instruction::OpV(x) | Instruction::OpP(x) = instruction {
        table[usize::from(x)] = true;
    }
}

// For each variable, whether some V or P names it.
fn marks(blocks: &[Block]) -> [bool; 256]
    ensures { (x : ℕ) → get_or result x false ≡ semaphore blocks.now x }
{
    let mut table = [false; 256];
    for block in blocks {
        mark(&mut table, block.instruction);
    }
    table
}

// The block names a marked variable.
fn is_bad(block: &Block, table: &[bool; 256]) -> bool
    ensures { result ≡ some_below (λ x. get_or table.now x false && block_names block.now x) variables }
{
    (0..VARIABLES).any(|x| table[usize::from(x)] && names::block_names(*block, x))
}

// Code 9: the variables that some V or P names are marked first.
pub fn nine(blocks: &[Block]) -> Option<usize>
    ensures { result ≡ found (λ b. bad9 blocks.now (block_of blocks.now b)) (length blocks.now) }
{
    let table = marks(blocks);
    blocks.iter().position(|block| is_bad(block, &table))
}
