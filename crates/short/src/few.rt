// A short list of labels, of which each block gives a few.

ghost use Rattle.std.specs.Prelude.{◌≤◌};

// The first count of eight labels.
#[derive(Clone, Copy)]
pub struct Few {
    count: usize,
    labels: [u8; 8],
    pub ghost within: { count ≤ 8 },
}

impl Few {
    ghost use Rattle.std.specs.Prelude.{[], ◌∷◌, ◌≡◌, slice_get, take};
    ghost use Rattle.short.specs.Few.{few};

    // The most labels that a list holds: a call names so many.
    pub const MOST: usize = 8;

    pub fn none() -> Few
        ensures { few result ≡ [] }
    {
        Few {
            count: 0,
            labels: [0; 8],
        }
    }

    pub fn one(l: u8) -> Few
        ensures { few result ≡ l ∷ [] }
    {
        Few {
            count: 1,
            labels: [l; 8],
        }
    }

    pub fn two(l: u8, m: u8) -> Few
        ensures { few result ≡ l ∷ m ∷ [] }
    {
        Few {
            count: 2,
            labels: [l, m, 0, 0, 0, 0, 0, 0],
        }
    }

    // The first count of the labels, and no more than there are.
    pub fn first_of(labels: [u8; 8], count: usize) -> Few
        ensures { few result ≡ take count labels }
    {
        Few {
            count: count.min(Few::MOST),
            labels,
        }
    }

    pub fn labels(&self) -> &[u8]
        ensures { result.now ≡ few self.now }
    {
        &self.labels[..self.count]
    }

    pub fn first(&self) -> Option<u8>
        ensures { result ≡ slice_get (few self.now) 0 }
    {
        self.labels().first().copied()
    }
}
