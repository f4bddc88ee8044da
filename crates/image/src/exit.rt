// Exits: `-> l`, `e -> l1;l2`, `end l`.

ghost use Rattle.std.specs.Prelude.{◌≡◌};
ghost use Rattle.rules.specs.Read.{exit_at};
ghost use Rattle.image.specs.Shown.{shown};

use crate::{Cursor, Fault};
use rules::{Code, Exit, Instruction};

impl Cursor {
    // The exit of a block with this body. After a call a whole record of another exit than `-> l` is refused (8).
    #[tactic(auto, unfolding(rules::specs::Base::pick, rules::specs::Read::next, rules::specs::Read::follows, rules::specs::Read::leaf_exit_at, rules::specs::Read::call_exit_at, rules::specs::Read::exit_at))]
    pub fn exit(self, s: &[u8], body: Instruction) -> Result<(Exit, Cursor), Fault>
        ensures { shown result ≡ exit_at s.now self.at body }
    {
        let after_call = matches!(body, Instruction::Call(_));
        match self.kind(s)? {
            0x30 => self.label(s).map(|(l, next)| (Exit::To(l), next)),
            0x31 => {
                let ((l, m), condition) = self.labels(s)?;
                if after_call {
                    return Err(self.fault(Code::CallPoint));
                }
                let (e, next) = condition.expression(s)?;
                Ok((Exit::Either(e, l, m), next))
            }
            0x32 => {
                let (l, next) = self.label(s)?;
                if after_call {
                    return Err(self.fault(Code::CallPoint));
                }
                Ok((Exit::End(l), next))
            }
            _ => Err(self.fault(Code::Kind)),
        }
    }
}
