// The C boundary: what include/tillerwrap.h declares, and crate tillerwrap_c exports. Each promise is that of the function below it,
// on numbers and bytes: a slice of words is bytes, four a word, low byte first.
#![tactic(auto)]

ghost use Rattle.std.specs.Prelude.{◌≡◌, List, ℕ, length, IfOk};
ghost use Rattle.rules.specs.Codes.{number};
ghost use Rattle.rules.specs.Judgement.{judged};
ghost use Rattle.rules.specs.Judge.{judgement, numbers};
ghost use Rattle.rules.specs.Words.{Outcome, refuse, on_image, start_bytes_in, start_bytes, step_bytes};
ghost use Rattle.rules.specs.List.{list_bytes};
ghost use Rattle.rules.specs.declared.Block.{Block};
ghost use Rattle.rules.specs.declared.Row as Declared;
ghost use Rattle.accepted.specs.Listed.{listed};
ghost use Rattle.runtime.specs.Outcome.{outcome_of, left};
ghost use Rattle.machine.specs.Outcome.{ended};

use rules::{Accepted, Answer, Code, Judged, Refused, Row};

// The bytes of a first memory and of a machine, and the rows of a list.
const MEMORY_BYTES: usize = 1152;

const MACHINE_BYTES: usize = 34696;

const ROWS: usize = 64;

// The four numbers of a judgement.
fn numbers_of(found: Result<Accepted, Refused>) -> Judged
    ensures { result ≡ numbers (judged found) }
{
    match found {
        Ok(accepted) => Judged {
            code: 0,
            place: 0,
            blocks: accepted.blocks,
            peak: accepted.peak,
        },
        Err(refused) => Judged {
            code: refused.code.number(),
            place: refused.place,
            blocks: 0,
            peak: 0,
        },
    }
}

// Judges any bytes.
pub fn tillerwrap_judge(image: &[u8]) -> Judged
    ensures { result ≡ numbers (judgement image.now) }
{
    numbers_of(judge::judge(image))
}

// 16 for a length that is wrong, after the codes of judging.
fn wrong_length(image: &[u8]) -> Refused
    ensures words { (lent : List ℕ) → refuse (number result.code) result.place lent ≡ on_image image.now lent (λ program. refuse 16 0 lent) }
    ensures rows { (lent : List Declared.Row) → refuse (number result.code) result.place lent ≡ on_image image.now lent (λ program. refuse 16 0 lent) }
{
    match judge::judge(image) {
        Ok(_) => Refused::from(Code::SliceLength),
        Err(refused) => refused,
    }
}

// Starts a machine for an image that is accepted. (Not inlined, so that its words are not on the stack yet while the image is judged.)
#[inline(never)]
fn start_bytes(first: &[u8], machine: &mut [u8]) -> Result<(), Code>
    ensures { (p : List Block) → ended result machine.new ≡ start_bytes_in first.now machine.old p }
{
    if first.len() != MEMORY_BYTES || machine.len() != MACHINE_BYTES {
        return Err(Code::SliceLength);
    }
    let mut memory = [0u32; 288];
    word_bytes::words_of(first, &mut memory);
    let mut words = [0u32; 8674];
    let done = machine::start::start(&memory, &mut words);
    word_bytes::bytes_of(&words, machine);
    done
}

fn started(image: &[u8], first: &[u8], machine: &mut [u8]) -> Result<(), Refused>
    ensures { left result machine.new ≡ start_bytes image.now first.now machine.old }
{
    judge::judge(image)?;
    start_bytes(first, machine)?;
    Ok(())
}

// Starts a machine: the lent bytes are all written, or on a refusal left as they are.
pub fn tillerwrap_start(image: &[u8], first: &[u8], machine: &mut [u8]) -> Answer
    ensures { outcome_of result machine.new ≡ start_bytes image.now first.now machine.old }
{
    runtime::answer(started(image, first, machine))
}

// One forward step or one undo of a process: the lent bytes are those of the machine after it, or on a refusal left as they are.
pub fn tillerwrap_step(image: &[u8], process: u32, direction: u32, machine: &mut [u8]) -> Answer
    ensures { outcome_of result machine.new ≡ step_bytes image.now machine.old process direction }
{
    if machine.len() != MACHINE_BYTES {
        return Answer::from(wrong_length(image));
    }
    let mut words = [0u32; 8674];
    word_bytes::words_of(machine, &mut words);
    let answer = runtime::stepping::step(image, &mut words, process, direction);
    if answer.code != 0 {
        return answer;
    }
    word_bytes::bytes_of(&words, machine);
    answer
}

// The list into n rows, by value.
fn listing_of(image: &[u8], machine: &[u8], n: usize) -> Result<[Row; 64], Refused>
    ensures rows { IfOk result (λ rows. n ≡ 64) }
    ensures list { (lent : List Declared.Row) → length lent ≡ n → listed result lent ≡ list_bytes image.now machine.now lent }
{
    if n != ROWS || machine.len() != MACHINE_BYTES {
        return Err(wrong_length(image));
    }
    let mut words = [0u32; 8674];
    word_bytes::words_of(machine, &mut words);
    runtime::readiness::ready(image, &words)
}

// The list: where the code is 0 all 64 rows are written, a row a live process and the rest zero; else they stay as they are.
pub fn tillerwrap_list(image: &[u8], machine: &[u8], rows: &mut [Row]) -> Answer
    ensures { outcome_of result rows.new ≡ list_bytes image.now machine.now rows.old }
{
    match listing_of(image, machine, rows.len()) {
        Ok(listing) => {
            rows.copy_from_slice(&listing);
            Answer { code: 0, place: 0 }
        }
        Err(refused) => Answer::from(refused),
    }
}
