// A step on the lent words, document 01: the codes of judging, then those of the step on the decoded blocks.
ghost use Rattle.std.specs.Prelude.{◌≡◌};
ghost use Rattle.rules.specs.Words.{step as Words·step};
ghost use Rattle.runtime.specs.Outcome.{outcome_of, left};

use rules::{Answer, Refused};

fn stepped(image: &[u8], words: &mut [u32], process: u32, direction: u32) -> Result<(), Refused>
    ensures { left result words.new ≡ Words·step image.now words.old process direction }
{
    let program = decode::decode(image)?;
    let blocks = program.blocks();
    judge::judge_blocks(blocks)?;
    let plan = accepted::plan_on(words, blocks, process, direction);
    plans::finish(words, plan)?;
    Ok(())
}

// Any image, any words, any process and direction: always an answer. A refusal leaves every word as handed in.
pub fn step(image: &[u8], words: &mut [u32], process: u32, direction: u32) -> Answer
    ensures { outcome_of result words.new ≡ Words·step image.now words.old process direction }
{
    crate::answer(stepped(image, words, process, direction))
}
