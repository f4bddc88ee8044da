// Instructions: updates, exchanges, V, P, assert, skip; calls stand in `call`.

ghost use Rattle.std.specs.Prelude.{◌≡◌, ◌+◌};
ghost use Rattle.rules.specs.Read.{update_at, exchange_at, instruction_at};
ghost use Rattle.image.specs.Shown.{shown};

use crate::{Cursor, Fault};
use names::itself::{exchanges_itself, updates_itself};
use rules::{Change, Code, Entry, Instruction};

impl Cursor {
    // An update. 7 is judged after the instruction's last record, its place the instruction's kind byte.
    #[tactic(auto, unfolding(rules::specs::Base::pick, rules::specs::Read::next, rules::specs::Read::update_at))]
    fn update(self, s: &[u8], past: Cursor, change: Change) -> Result<(Instruction, Cursor), Fault>
        requires { past.at ≡ self.at + 1 }
        ensures { shown result ≡ update_at s.now self.at change }
    {
        let (a, by) = past.left_operand(s)?;
        let (e, next) = by.expression(s)?;
        if updates_itself(a, e) {
            return Err(self.fault(Code::OwnName));
        }
        Ok((Instruction::Update(change, a, e), next))
    }

    // An exchange, with 7 as for an update.
    #[tactic(auto, unfolding(rules::specs::Base::pick, rules::specs::Read::next, rules::specs::Read::exchange_at))]
    fn exchange(self, s: &[u8], past: Cursor) -> Result<(Instruction, Cursor), Fault>
        requires { past.at ≡ self.at + 1 }
        ensures { shown result ≡ exchange_at s.now self.at }
    {
        let (a, with) = past.left_operand(s)?;
        let (b, next) = with.left_operand(s)?;
        if exchanges_itself(a, b) {
            return Err(self.fault(Code::OwnName));
        }
        Ok((Instruction::Exchange(a, b), next))
    }

    // The body of the block whose entry is `entry`.
    #[tactic(auto, unfolding(rules::specs::Base::pick, rules::specs::Read::next, rules::specs::Read::follows, rules::specs::Read::instruction_at))]
    pub fn instruction(self, s: &[u8], entry: Entry) -> Result<(Instruction, Cursor), Fault>
        ensures { shown result ≡ instruction_at s.now self.at entry }
    {
        let kind = self.kind(s)?;
        let past = Cursor { at: self.at + 1 };
        match kind {
            0x40 => self.update(s, past, Change::Add),
            0x41 => self.update(s, past, Change::Subtract),
            0x42 => self.update(s, past, Change::Xor),
            0x43 => self.exchange(s, past),
            0x44 => self
                .variable(s)
                .map(|(x, next)| (Instruction::OpV(x), next)),
            0x45 => self
                .variable(s)
                .map(|(x, next)| (Instruction::OpP(x), next)),
            0x46 => past
                .expression(s)
                .map(|(e, next)| (Instruction::Assert(e), next)),
            0x47 => Ok((Instruction::Skip, past)),
            0x51..=0x58 => self.call(s, entry, kind - 0x50),
            _ => Err(self.fault(Code::Kind)),
        }
    }
}
