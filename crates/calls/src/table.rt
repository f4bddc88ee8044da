// The table of calls that codes 14 and 15 are judged on.
ghost use Rattle.std.specs.Prelude.{◌≡◌, ◌<◌};
ghost use Rattle.rules.specs.Calls.{calls_at};
ghost use Rattle.calls.specs.Table.{calling, Tabled};

// Of each of `count` blocks the label of its process block, how many labels it calls (0 where it is no call), and eight
// places for those labels.
#[derive(Drop)]
pub struct Calls {
    pub homes: [u8; 128],
    pub counts: [u8; 128],
    pub names: [u8; 1024],
    pub count: usize,
}

impl Calls {
    // The labels that block b calls.
    pub fn called(&self, b: usize) -> &[u8]
        requires tabled { Tabled self.now }
        requires b_lt_count { b < self.now.count }
        ensures { result.now ≡ calls_at (calling self.now) b }
    {
        let first = 8 * b;
        &self.names[first..first + usize::from(self.counts[b])]
    }
}
