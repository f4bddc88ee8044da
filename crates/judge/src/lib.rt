// Judging an image, codes 1 to 15 with their places: what document 01 answers for any bytes.
#![tactic(auto)]

ghost use Rattle.std.specs.Prelude.{◌≡◌, ◌<◌, ◌≤◌, length, IfSome};
ghost use Rattle.rules.specs.Format.{most_blocks};
ghost use Rattle.rules.specs.Judgement.{judged};
ghost use Rattle.rules.specs.Judge.{judged_blocks, judgement};
ghost use Rattle.judge.specs.Parts.{passed};

use rules::{Accepted, Block, Code, Refused};

// A code at the lowest block that is bad, where there is one.
fn pass(code: Code, bad: Option<usize>) -> Result<(), Refused>
    requires { IfSome bad (λ b. b < most_blocks) }
    ensures { result ≡ passed code bad }
{
    match bad {
        None => Ok(()),
        Some(b) => Err(Refused {
            code,
            place: b as u32,
        }),
    }
}

// Codes 9 to 15 on decoded blocks, one code at a time. (Not inlined, so that its tables never lie on the stack beside those of
// decoding.)
#[inline(never)]
pub fn judge_blocks(blocks: &[Block]) -> Result<Accepted, Refused>
    requires { length blocks.now ≤ most_blocks }
    ensures { judged result ≡ judged_blocks blocks.now }
{
    pass(Code::SemaphoreNamed, semaphores::nine(blocks))?;
    let labelled = labels::ten(blocks);
    pass(Code::LabelCount, labelled.bad)?;
    let processes = processes::process_blocks(blocks);
    pass(Code::ProcessBlock, processes.bad)?;
    pass(Code::UnknownLabel, called::twelve(blocks, &labelled.begins))?;
    if called::thirteen(&labelled.begins) {
        return Err(Refused::from(Code::NoMain));
    }
    let calls = called::call_table(blocks, processes.homes);
    pass(Code::Circle, calls::fourteen(&calls))?;
    let peak = calls::main_peak(&calls).ok_or(Refused::from(Code::TooDeep))?;
    Ok(Accepted {
        blocks: blocks.len() as u32,
        peak,
    })
}

// Any bytes get exactly the answer of document 01. (Not inlined, so that the blocks are off the stack again when the caller goes on.)
#[inline(never)]
pub fn judge(image: &[u8]) -> Result<Accepted, Refused>
    ensures { judged result ≡ judgement image.now }
{
    let program = decode::decode(image)?;
    judge_blocks(program.blocks())
}
