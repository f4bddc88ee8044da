// The block at a place, document 01: for each label the block whose entry holds it and the block whose exit does, as tables of a
// byte a label. Where no block does, a table has the number of blocks, and a look-up answers None.
#![tactic(auto)]

ghost use Rattle.std.specs.Prelude.{List, ◌≡◌, ◌≤◌, ◌<◌, length, get_or, IfSome};
ghost use Rattle.rules.specs.Format.{most_blocks};
ghost use Rattle.rules.specs.Machine.{place};
ghost use Rattle.rules.specs.Fits.{entry_block, exit_block};
ghost use Rattle.rules.specs.declared.Block.{Block};
ghost use Rattle.laws.specs.Found.{or_else};
ghost use Rattle.places.specs.Places.{Noted, Entries, Exits, PlacesOf};

use rules::{Block, Place};
use short::{of_begin, of_end, of_entry, of_exit};

// For each label: the block whose entry, and whose exit, has it as an ordinary label; its `begin`'s and its `end`'s block.
#[derive(Drop)]
pub struct Places {
    pub entry: [u8; 256],
    pub exit: [u8; 256],
    pub begin: [u8; 256],
    pub end: [u8; 256],
    // how many blocks there are
    pub count: usize,
}

// Block b holds the labels.
fn note(table: &mut [u8; 256], labels: &[u8], b: u8)
    ensures { Noted labels.now b table.old table.new }
{
    for label in labels {
        table[usize::from(*label)] = b;
    }
}

// The block that a table of `count` blocks has for a label; none where the label is over 255.
fn at(table: &[u8; 256], label: u32, count: usize) -> Option<usize>
    ensures block { get_or table.now label count ≤ count → or_else result count ≡ get_or table.now label count }
    ensures below { IfSome result (λ b. b < count) }
{
    match table.get(label as usize) {
        Some(block) if usize::from(*block) < count => Some(usize::from(*block)),
        _ => None,
    }
}

impl Places {
    // The tables of a program, made from the last block to the first, so that the lowest stays.
    pub fn of(blocks: &[Block]) -> Places
        requires { length blocks.now ≤ most_blocks }
        ensures { PlacesOf blocks.now result }
    {
        let count = blocks.len();
        let none = [count as u8; 256];
        let mut places = Places {
            entry: none,
            exit: none,
            begin: none,
            end: none,
            count,
        };
        for b in (0..count).rev() {
            let block = &blocks[b];
            note(&mut places.entry, of_entry(block.entry).labels(), b as u8);
            note(&mut places.begin, of_begin(block.entry).labels(), b as u8);
            note(&mut places.exit, of_exit(block.exit).labels(), b as u8);
            note(&mut places.end, of_end(block.exit).labels(), b as u8);
        }
        places
    }

    // The block whose entry holds the place.
    pub fn entry_block(&self, label: u32, stage: u32) -> Option<usize>
        ensures block { (program : List Block) → Entries program self.now → or_else result self.now.count ≡ entry_block program (place label stage) }
        ensures below { IfSome result (λ b. b < self.now.count) }
    {
        match stage {
            Place::RUN => at(&self.entry, label, self.count),
            Place::BEGIN => at(&self.begin, label, self.count),
            _ => None,
        }
    }

    // The block whose exit holds the place.
    pub fn exit_block(&self, label: u32, stage: u32) -> Option<usize>
        ensures block { (program : List Block) → Exits program self.now → or_else result self.now.count ≡ exit_block program (place label stage) }
        ensures below { IfSome result (λ b. b < self.now.count) }
    {
        match stage {
            Place::RUN => at(&self.exit, label, self.count),
            Place::END => at(&self.end, label, self.count),
            _ => None,
        }
    }
}
