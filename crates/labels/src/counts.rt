// In how many entries, exits, begins and ends each label stands.

ghost use Rattle.std.specs.Prelude.{List, [], ◌∷◌, ◌++◌, ◌≡◌, ◌<◌, ◌≤◌, length};
ghost use Rattle.std.specs.List.{list_all};
ghost use Rattle.rules.specs.Format.{most_blocks};
ghost use Rattle.rules.specs.declared.Block.{Block};
ghost use Rattle.short.specs.Few.{few};
ghost use Rattle.short.specs.Low.{most, Low};
ghost use Rattle.labels.specs.Counts.{Raised, CountsOf, ordinary_in, outer_in, bad_by};

use rules::Block;
use short::Few;

// For each label one count of each kind.
#[derive(Drop)]
pub struct Counts {
    pub entries: [u16; 256],
    pub exits: [u16; 256],
    pub begins: [u16; 256],
    pub ends: [u16; 256],
}

// One more for each of the labels.
fn raise(counts: &mut [u16; 256], labels: &[u8])
    requires { Low most counts.old × (length labels.now ≤ most) }
    ensures { Raised counts.old labels.now counts.new }
{
    for l in labels {
        counts[usize::from(*l)] += 1;
    }
}

impl Counts {
    // The labels of all blocks counted.
    pub(crate) fn of(blocks: &[Block]) -> Counts
        requires { length blocks.now ≤ most_blocks }
        ensures { CountsOf blocks.now result }
    {
        let none = [0u16; 256];
        let mut counts = Counts {
            entries: none,
            exits: none,
            begins: none,
            ends: none,
        };
        for block in blocks {
            counts.add(block);
        }
        counts
    }

    // The labels of one block more.
    fn add(&mut self, block: &Block)
        requires { (program : List Block) × (length program < most_blocks) × CountsOf program self.old }
        ensures { (program : List Block) → CountsOf program self.old → CountsOf (program ++ block.now ∷ []) self.new }
    {
        raise(&mut self.entries, short::of_entry(block.entry).labels());
        raise(&mut self.exits, short::of_exit(block.exit).labels());
        raise(&mut self.begins, short::of_begin(block.entry).labels());
        raise(&mut self.ends, short::of_end(block.exit).labels());
    }

    // One entry and one exit, and no other use.
    fn is_ordinary(&self, label: u8) -> bool
        ensures { result ≡ ordinary_in self.now label }
    {
        let l = usize::from(label);
        self.entries[l] == 1 && self.exits[l] == 1 && self.begins[l] == 0 && self.ends[l] == 0
    }

    // One begin and one end, and no other use.
    fn is_outer(&self, label: u8) -> bool
        ensures { result ≡ outer_in self.now label }
    {
        let l = usize::from(label);
        self.begins[l] == 1 && self.ends[l] == 1 && self.entries[l] == 0 && self.exits[l] == 0
    }

    fn all_ordinary(&self, list: Few) -> bool
        ensures { result ≡ list_all (ordinary_in self.now) (few list) }
    {
        list.labels().iter().all(|l| self.is_ordinary(*l))
    }

    fn all_outer(&self, list: Few) -> bool
        ensures { result ≡ list_all (outer_in self.now) (few list) }
    {
        list.labels().iter().all(|l| self.is_outer(*l))
    }

    // A label of the block does not stand as it must.
    pub(crate) fn is_bad(&self, block: &Block) -> bool
        ensures { result ≡ bad_by self.now block.now }
    {
        !(self.all_ordinary(short::of_entry(block.entry))
            && self.all_ordinary(short::of_exit(block.exit))
            && self.all_outer(short::of_begin(block.entry))
            && self.all_outer(short::of_end(block.exit)))
    }
}
