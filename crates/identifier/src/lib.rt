// Identifiers of processes: the root is 0, child i of p is 16p + i.
#![tactic(auto)]

ghost use Rattle.std.specs.Prelude.{◌≡◌, ◌%◌, ◌<◌};
ghost use Rattle.rules.specs.Machine.{child, parent};

#[derive(Clone, Copy, PartialEq, Eq)]
pub struct Identifier {
    pub number: u32,
}

impl From<u32> for Identifier {
    ghost from_gives = { λ number process. process ≡ record { number = number } };

    fn from(number: u32) -> Identifier {
        Identifier { number }
    }
}

impl Identifier {
    pub const ROOT: u32 = 0;

    // A process is at most as many calls below the root as main may be deep: so many digits has its identifier.
    pub const DEPTH: u32 = 8;

    // The most labels that a call names: children are numbered from 1 to so many.
    pub const MOST_CALLED: u32 = 8;

    // A process that is not at the depth limit has children whose identifiers fit.
    pub fn child(self, i: u32) -> Identifier
        requires { (self.number < 268435456) × (i < 16) }
        ensures { result.number ≡ child self.number i }
    {
        Identifier::from(16 * self.number + i)
    }

    // Child 1, as a wide number: of a process at the depth limit too, which has no children.
    pub fn children_from(self) -> usize
        ensures { result ≡ child self.number 1 }
    {
        16 * self.number as usize + 1
    }

    pub fn parent(self) -> Identifier
        ensures { result.number ≡ parent self.number }
    {
        Identifier::from(self.number / 16)
    }

    // Which child of its parent it is.
    pub fn digit(self) -> u32
        ensures { result ≡ self.number % 16 }
    {
        self.number % 16
    }
}
