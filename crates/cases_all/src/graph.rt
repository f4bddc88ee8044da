// The cause graph of a machine's history, a line for each kept step: its process, how many earlier entries the process has, and its
// edges by resource, each from the last step before it that writes the resource.
ghost use Rattle.std.specs.Prelude.{◌≤◌, length};
ghost use Rattle.theorems.specs.Program.{Sound};

use crate::{print, words};
use masks::Masks;
use rules::{Block, Refused};

// The word of entry i that holds its process.
fn entry_word(i: usize) -> usize {
    if i < 4096 { 482 + 2 * i } else { 482 }
}

fn process_of(machine: &[u32], i: usize) -> u32 {
    words::get(machine, entry_word(i))
}

// The mask of entry i's block.
fn mask_of(machine: &[u32], masks: &[u64; 128], i: usize) -> u64 {
    let block = words::get(machine, words::moved(entry_word(i), 1));
    masks.get(block as usize).copied().unwrap_or(0)
}

fn has(mask: u64, resource: u32) -> bool {
    resource < 64 && (mask >> resource) % 2 == 1
}

// How many entries before i are of its process.
fn number_of(machine: &[u32], i: usize) -> u32 {
    let process = process_of(machine, i);
    let before = (0..i).filter(|j| process_of(machine, *j) == process);
    before.count().min(65536) as u32
}

fn node(machine: &[u32], i: usize) {
    print::hexadecimal(process_of(machine, i));
    print::decimal(number_of(machine, i));
}

// The last entry before i that writes the resource.
fn last_writer(machine: &[u32], writes: &[u64; 128], i: usize, resource: u32) -> Option<usize> {
    (0..i)
        .rev()
        .find(|j| has(mask_of(machine, writes, *j), resource))
}

// Where an edge comes from: the last writer, or the start mark.
fn source(machine: &[u32], writes: &[u64; 128], i: usize, resource: u32) {
    match last_writer(machine, writes, i, resource) {
        Some(j) => node(machine, words::moved(j, 1).saturating_sub(1)),
        None => print::start_mark(),
    }
}

// An edge of a kind: W where the step writes the resource, R where it only reads it.
fn edge_of(machine: &[u32], writes: &[u64; 128], kind: u8, i: usize, resource: u32) {
    print::letter(b' ');
    print::letter(kind);
    print::decimal(resource);
    source(machine, writes, i, resource);
}

fn edge(machine: &[u32], masks: &Masks, i: usize, resource: u32) {
    if has(mask_of(machine, &masks.writes, i), resource) {
        edge_of(machine, &masks.writes, b'W', i, resource);
    } else if has(mask_of(machine, &masks.reads, i), resource) {
        edge_of(machine, &masks.writes, b'R', i, resource);
    }
}

fn line(machine: &[u32], masks: &Masks, i: usize) {
    print::letter(b'N');
    node(machine, i);
    for resource in 0..33 {
        edge(machine, masks, i, resource);
    }
    print::letter(b'\n');
}

fn lines(machine: &[u32], blocks: &[Block])
    requires { Sound blocks.now × (length blocks.now ≤ 128) }
{
    let masks = Masks::of(blocks);
    for i in 0..words::get(machine, 1) as usize {
        line(machine, &masks, i);
    }
}

fn drawn(image: &[u8], machine: &[u32]) -> Result<(), Refused> {
    let program = decode::decode(image)?;
    let blocks = program.blocks();
    judge::judge_blocks(blocks)?;
    lines(machine, blocks);
    Ok(())
}

// Nothing where the image is refused.
pub fn graph(image: &[u8], machine: &[u32]) {
    let _ = drawn(image, machine);
}
