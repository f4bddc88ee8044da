// Starting a machine on its words, for any image: the codes of judging first, then 16.
#![tactic(auto)]

pub mod readiness;
pub mod stepping;

ghost use Rattle.std.specs.Prelude.{◌≡◌, List, ℕ};
ghost use Rattle.rules.specs.Words.{start as Words·start};
ghost use Rattle.runtime.specs.Outcome.{outcome_of, left};

use rules::{Answer, Refused};

// What a call answers: 0, or the code and the place of its refusal.
pub fn answer(done: Result<(), Refused>) -> Answer
    ensures { (lent : List ℕ) → outcome_of result lent ≡ left done lent }
{
    match done {
        Ok(()) => Answer { code: 0, place: 0 },
        Err(refused) => Answer::from(refused),
    }
}

fn started(image: &[u8], first: &[u32], words: &mut [u32]) -> Result<(), Refused>
    ensures { left result words.new ≡ Words·start image.now first.now words.old }
{
    judge::judge(image)?;
    machine::start::start(first, words)?;
    Ok(())
}

// The root at main, begin, with no history: every word is written. A refusal leaves every word as handed in.
pub fn start(image: &[u8], first: &[u32], words: &mut [u32]) -> Answer
    ensures { outcome_of result words.new ≡ Words·start image.now first.now words.old }
{
    answer(started(image, first, words))
}
