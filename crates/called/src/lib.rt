// Codes 12 and 13, and the table of calls that codes 14 and 15 want.
#![tactic(auto)]

ghost use Rattle.std.specs.Prelude.{List, ◌≡◌, ◌+◌, ◌≤◌, length, get_or, eqb};
ghost use Rattle.std.specs.List.{list_any};
ghost use Rattle.std.proofs.Math.Seq.{paste};
ghost use Rattle.rules.specs.Format.{most_blocks};
ghost use Rattle.rules.specs.Labels.{block_of, called_by, bad12};
ghost use Rattle.rules.specs.Calls.{bad13};
ghost use Rattle.laws.specs.Found.{found};
ghost use Rattle.labels.specs.Counts.{BeginsOf};
ghost use Rattle.called.specs.Calls.{places, CallsOf};

use calls::Calls;
use rules::Block;
use short::Few;

// Each block has eight places for the labels that it calls.
const PLACES: usize = Few::MOST * 128;

// The labels stored from a place on.
fn store(names: &mut [u8; PLACES], at: usize, labels: &[u8])
    requires { at + length labels.now ≤ places }
    ensures { names.new ≡ paste names.old at labels.now (length labels.now) }
{
    names[at..at + labels.len()].copy_from_slice(labels);
}

// The labels that each block calls, beside the label of its process block.
pub fn call_table(blocks: &[Block], homes: [u8; 128]) -> Calls
    requires { length blocks.now ≤ most_blocks }
    ensures { CallsOf blocks.now homes result }
{
    let mut counts = [0u8; 128];
    let mut names = [0u8; PLACES];
    for (b, block) in blocks.iter().enumerate() {
        let called = short::of_call(block.instruction);
        let labels = called.labels();
        counts[b] = labels.len() as u8;
        store(&mut names, Few::MOST * b, labels);
    }
    Calls {
        homes,
        counts,
        names,
        count: blocks.len(),
    }
}

// The block calls a label that has no begin.
fn is_bad(block: &Block, begins: &[u16; 256]) -> bool
    ensures { result ≡ list_any (λ l. eqb (get_or begins.now l 0) 0) (called_by block.now.instruction) }
{
    let called = short::of_call(block.instruction);
    called.labels().iter().any(|l| begins[usize::from(*l)] == 0)
}

// The lowest block that is refused.
pub fn twelve(blocks: &[Block], begins: &[u16; 256]) -> Option<usize>
    requires { BeginsOf blocks.now begins.now }
    ensures { result ≡ found (λ b. bad12 blocks.now (block_of blocks.now b)) (length blocks.now) }
{
    blocks.iter().position(|block| is_bad(block, begins))
}

// There is no `begin 0`.
pub fn thirteen(begins: &[u16; 256]) -> bool
    ensures { (program : List Block) → BeginsOf program begins.now → result ≡ bad13 program }
{
    begins[0] == 0
}
