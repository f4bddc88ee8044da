// Operands, and the left operands of updates and exchanges.
#![tactic(auto, unfolding(rules::specs::Base::pick, rules::specs::Read::next, rules::specs::Read::follows))]

ghost use Rattle.std.specs.Prelude.{◌≡◌};
ghost use Rattle.rules.specs.Read.{constant_at, operand_at, target_at};
ghost use Rattle.image.specs.Shown.{shown};

use crate::{Cursor, Fault};
use rules::{Code, Operand, Target};
use word_bytes::word_at;

impl Cursor {
    #[tactic(auto, unfolding(rules::specs::Base::pick, rules::specs::Read::whole, rules::specs::Read::constant_at))]
    fn constant(self, s: &[u8]) -> Result<(Operand, Cursor), Fault>
        ensures { shown result ≡ constant_at s.now self.at }
    {
        self.body(s, 4)?;
        let word = word_at(s, self.at + 1);
        Ok((Operand::Constant(word), Cursor { at: self.at + 5 }))
    }

    #[tactic(auto, unfolding(rules::specs::Base::pick, rules::specs::Read::next, rules::specs::Read::follows, rules::specs::Read::operand_at))]
    pub fn operand(self, s: &[u8]) -> Result<(Operand, Cursor), Fault>
        ensures { shown result ≡ operand_at s.now self.at }
    {
        match self.kind(s)? {
            0x01 => self.constant(s),
            0x02 => self
                .variable(s)
                .map(|(x, next)| (Operand::Variable(x), next)),
            0x03 => self.variable(s).map(|(x, next)| (Operand::Cell(x), next)),
            _ => Err(self.fault(Code::Kind)),
        }
    }

    // A left operand is 02 or 03.
    #[tactic(auto, unfolding(rules::specs::Base::pick, rules::specs::Read::next, rules::specs::Read::follows, rules::specs::Read::target_at))]
    pub fn left_operand(self, s: &[u8]) -> Result<(Target, Cursor), Fault>
        ensures { shown result ≡ target_at s.now self.at }
    {
        match self.kind(s)? {
            0x02 => self
                .variable(s)
                .map(|(x, next)| (Target::Variable(x), next)),
            0x03 => self.variable(s).map(|(x, next)| (Target::Cell(x), next)),
            _ => Err(self.fault(Code::Kind)),
        }
    }
}
