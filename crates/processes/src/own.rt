// The begins and the ends of each group of blocks, and what is read off them.

ghost use Rattle.std.specs.Prelude.{ℕ, not, ◌≡◌, ◌<◌, ◌≤◌, length, get_or};
ghost use Rattle.rules.specs.Format.{most_blocks};
ghost use Rattle.laws.specs.Found.{found};
ghost use Rattle.groups.specs.Nodes.{all_nodes};
ghost use Rattle.processes.specs.Own.{OwnOf, one_at, first_begin};

use super::grouped::Groups;
use super::tally::Tally;
use rules::Block;

#[derive(Drop)]
pub struct Own {
    pub begins: Tally,
    pub ends: Tally,
}

impl Own {
    pub(crate) fn of(blocks: &[Block], groups: &Groups) -> Own
        requires { length blocks.now ≤ most_blocks }
        ensures { OwnOf groups.now.numbers blocks.now result }
    {
        let mut own = Own {
            begins: Tally::blank(),
            ends: Tally::blank(),
        };
        for (b, block) in blocks.iter().enumerate() {
            let g = groups.of_block(b);
            own.begins.note(g, short::of_begin(block.entry));
            own.ends.note(g, short::of_end(block.exit));
        }
        own
    }

    // Group g has exactly one begin and one end, both of one label.
    fn is_whole(&self, g: usize) -> bool
        requires { g < all_nodes }
        ensures { result ≡ one_at self.now g }
    {
        self.begins.counts[g] == 1
            && self.ends.counts[g] == 1
            && self.begins.firsts[g] == self.ends.firsts[g]
    }

    // The lowest of n blocks whose process block is not whole.
    pub(crate) fn first_bad(&self, n: usize, groups: &Groups) -> Option<usize>
        requires { n ≤ most_blocks }
        ensures { result ≡ found (λ b. not (one_at self.now (get_or groups.now.numbers b 0))) n }
    {
        (0..n).position(|b| !self.is_whole(groups.of_block(b)))
    }

    // The label of block b's process block: its group's first begin, or 0.
    fn home(&self, b: usize, groups: &Groups) -> u8
        requires { b < most_blocks }
        ensures { result ≡ first_begin self.now (get_or groups.now.numbers b 0) }
    {
        self.begins.firsts[groups.of_block(b)].unwrap_or(0)
    }

    // That of each block.
    pub(crate) fn homes(&self, groups: &Groups) -> [u8; 128]
        ensures { (b : ℕ) → b < most_blocks → get_or result b 0 ≡ first_begin self.now (get_or groups.now.numbers b 0) }
    {
        let mut homes = [0; 128];
        for b in 0..128 {
            homes[b] = self.home(b, groups);
        }
        homes
    }
}
