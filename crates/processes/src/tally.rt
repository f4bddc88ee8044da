// The begins of each group of blocks, or the ends: how many there are, and the first one's label, if there is one.

ghost use Rattle.std.specs.Prelude.{◌≡◌, ◌<◌, ◌≤◌, get_or};
ghost use Rattle.groups.specs.Nodes.{all_nodes};
ghost use Rattle.short.specs.Few.{few};
ghost use Rattle.short.specs.Low.{most};
ghost use Rattle.processes.specs.Own.{blank_tally, noted};

use super::NODES;
use short::Few;

// For each group.
#[derive(Drop)]
pub struct Tally {
    pub counts: [u16; NODES],
    pub firsts: [Option<u8>; NODES],
}

impl Tally {
    pub(crate) fn blank() -> Tally
        ensures { result ≡ blank_tally }
    {
        Tally {
            counts: [0; NODES],
            firsts: [None; NODES],
        }
    }

    // The labels noted in group g, where the first label noted stays.
    pub(crate) fn note(&mut self, g: usize, list: Few)
        requires { (g < all_nodes) × (get_or self.old.counts g 0 ≤ most) }
        ensures { self.new ≡ noted self.old g (few list) }
    {
        self.firsts[g] = self.firsts[g].or(list.first());
        self.counts[g] += list.labels().len() as u16;
    }
}
