// Entries: `l <-`, `l1;l2 <- e`, `begin l`.

ghost use Rattle.std.specs.Prelude.{◌≡◌};
ghost use Rattle.rules.specs.Read.{entry_at};
ghost use Rattle.image.specs.Shown.{shown};

use crate::{Cursor, Fault};
use rules::{Code, Entry};

impl Cursor {
    #[tactic(auto, unfolding(rules::specs::Base::pick, rules::specs::Read::next, rules::specs::Read::follows, rules::specs::Read::entry_at))]
    pub fn entry(self, s: &[u8]) -> Result<(Entry, Cursor), Fault>
        ensures { shown result ≡ entry_at s.now self.at }
    {
        match self.kind(s)? {
            0x20 => self.label(s).map(|(l, next)| (Entry::From(l), next)),
            0x21 => {
                let ((l, m), condition) = self.labels(s)?;
                let (e, next) = condition.expression(s)?;
                Ok((Entry::Either(l, m, e), next))
            }
            0x22 => self.label(s).map(|(l, next)| (Entry::Begin(l), next)),
            _ => Err(self.fault(Code::Kind)),
        }
    }
}
