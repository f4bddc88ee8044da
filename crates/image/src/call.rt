// Calls: kinds 51 to 58, of 1 to 8 labels, after an entry of kind 20.

ghost use Rattle.std.specs.Prelude.{◌≡◌, ◌≤◌};
ghost use Rattle.rules.specs.Read.{call_at};
ghost use Rattle.image.specs.Shown.{shown};

use crate::{Cursor, Fault};
use rules::{Code, Entry, Instruction, Names};

impl Cursor {
    // A call of n labels. 8: its entry is of another kind than 20.
    #[tactic(auto, unfolding(rules::specs::Base::pick, rules::specs::Read::whole, rules::specs::Read::call_at))]
    pub(crate) fn call(self, s: &[u8], entry: Entry, n: u8) -> Result<(Instruction, Cursor), Fault>
        requires { n ≤ 8 }
        ensures { shown result ≡ call_at s.now self.at entry n }
    {
        let count = usize::from(n);
        let body = self.body(s, count)?;
        let Entry::From(_) = entry else {
            return Err(self.fault(Code::CallPoint));
        };
        let mut labels = [0; 8];
        labels[..count].copy_from_slice(body);
        let at = self.at + 1 + count;
        Ok((Instruction::Call(Names { count: n, labels }), Cursor { at }))
    }
}
