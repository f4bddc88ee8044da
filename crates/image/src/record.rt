// What all records share: the kind, the body, and bodies of a label, of two labels or of a variable.
#![tactic(auto, unfolding(rules::specs::Base::pick, rules::specs::Read::whole, rules::specs::Read::label_at, rules::specs::Read::labels_at, rules::specs::Read::variable_at))]

ghost use Rattle.std.specs.Prelude.{◌≡◌, ◌+◌, ◌<◌, ◌≤◌, ℕ, length, slice_index, MatchResult};
ghost use Rattle.rules.specs.Read.{label_at, labels_at, variable_at};
ghost use Rattle.image.specs.Shown.{shown};

use crate::{Cursor, Fault};
use rules::Code;

const VARIABLES: u8 = 32;

impl Cursor {
    // A refusal whose place is here.
    pub(crate) fn fault(self, code: Code) -> Fault
        ensures { result ≡ record { code = code; place = self.at } }
    {
        Fault {
            code,
            place: self.at,
        }
    }

    // The kind of the record that must follow. 3: the image ends before it.
    pub(crate) fn kind(self, s: &[u8]) -> Result<u8, Fault>
        ensures { MatchResult result
            (λ kind. (self.at < length s.now) × (kind ≡ slice_index s.now self.at))
            (λ f. (length s.now ≤ self.at) × (f ≡ record { code = Code.Cut; place = length s.now })) }
    {
        s.get(self.at).copied().ok_or(Fault {
            code: Code::Cut,
            place: s.len(),
        })
    }

    // The n bytes that follow the kind. 3: the image ends inside the record.
    pub(crate) fn body(self, s: &[u8], n: usize) -> Result<&[u8], Fault>
        ensures { MatchResult result
            (λ body. (self.at + n < length s.now) × (length body.now ≡ n)
            × ((i : ℕ) → i < n → slice_index body.now i ≡ slice_index s.now (self.at + 1 + i)))
            (λ f. (length s.now ≤ self.at + n) × (f ≡ record { code = Code.Cut; place = self.at })) }
    {
        s.get(self.at..)
            .and_then(|rest| rest.get(1..=n))
            .ok_or(self.fault(Code::Cut))
    }

    pub fn label(self, s: &[u8]) -> Result<(u8, Cursor), Fault>
        ensures { shown result ≡ label_at s.now self.at }
    {
        let body = self.body(s, 1)?;
        Ok((body[0], Cursor { at: self.at + 2 }))
    }

    // The two labels of a condition differ.
    pub fn labels(self, s: &[u8]) -> Result<((u8, u8), Cursor), Fault>
        ensures { shown result ≡ labels_at s.now self.at }
    {
        let body = self.body(s, 2)?;
        let (l, m) = (body[0], body[1]);
        if l == m {
            return Err(self.fault(Code::EqualLabels));
        }
        Ok(((l, m), Cursor { at: self.at + 3 }))
    }

    // Variables are 0 to 31.
    pub fn variable(self, s: &[u8]) -> Result<(u8, Cursor), Fault>
        ensures { shown result ≡ variable_at s.now self.at }
    {
        let body = self.body(s, 1)?;
        if VARIABLES <= body[0] {
            return Err(self.fault(Code::Variable));
        }
        Ok((body[0], Cursor { at: self.at + 2 }))
    }
}
