// The session program's work: the line that it prints at its beginning and at each command, as rules' `session` has it.
#![tactic(auto)]

mod line;

ghost use Rattle.std.specs.Prelude.{ℕ, ◌≡◌, List, length, eqb};
ghost use Rattle.rules.specs.Base.{pick};
ghost use Rattle.rules.specs.Session.{refused_line, step_line};
ghost use Rattle.session.specs.Pieces.{Shows, beginning, unknown, asked, turned};
ghost use Rattle.session.specs.Put.{written};

pub use line::Line;

// The line that is printed, and whether the session goes on.
#[derive(Drop)]
pub struct Printed {
    pub line: Line,
    pub more: bool,
}

// X, code and place.
fn refused_line(code: u32, place: u32) -> Line
    ensures { written result ≡ refused_line code place }
{
    let mut line = Line::empty();
    line.put(b'X');
    line.field(code);
    line.field(place);
    line.put(b'\n');
    line
}

// F or B.
#[tactic(auto, unfolding(rules::specs::Base::pick))]
fn letter(direction: u32) -> u8
    ensures { result ≡ pick (eqb direction 0) 0x46 0x42 }
{
    if direction == 0 { b'F' } else { b'B' }
}

// F or B, the identifier, the code, and the counts after the step.
fn step_line(words: &[u32], direction: u32, process: u32, code: u32) -> Line
    requires { length words.now ≡ 8674 }
    ensures { written result ≡ step_line direction process code words.now }
{
    let mut line = Line::empty();
    line.put(letter(direction));
    line.put(b' ');
    line.hexadecimal(process);
    line.field(code);
    line.field(words[0]);
    line.field(words[1]);
    line.put(b'\n');
    line
}

// An unknown kind or a cut body: K, and the session ends.
fn stop() -> Printed
    ensures { (words : List ℕ) → Shows (unknown words) result words }
{
    let mut line = Line::empty();
    line.put(b'K');
    line.put(b'\n');
    Printed { line, more: false }
}

// Starts a machine from the bytes of the two files. A refusal prints its line, and the session ends.
pub fn begin(image: &[u8], memory: &[u8], words: &mut [u32]) -> Printed
    requires { length words.old ≡ 8674 }
    ensures { Shows (beginning image.now memory.now) result words.new }
{
    let mut machine = [0u8; 34696];
    let answer = tillerwrap::tillerwrap_start(image, memory, &mut machine);
    word_bytes::words_of(&machine, words);
    if answer.code == 0 {
        return Printed {
            line: Line::empty(),
            more: true,
        };
    }
    Printed {
        line: refused_line(answer.code, answer.place),
        more: false,
    }
}

// A whole command whose kind is known, forward (0) or undo (1): its step and the line.
fn ask(image: &[u8], words: &mut [u32], way: u32, body: &[u8]) -> Printed
    requires { (length words.old ≡ 8674) × (length body.now ≡ 4) }
    ensures { Shows (asked image.now words.old way body.now) result words.new }
{
    let process = word_bytes::word_at(body, 0);
    let answer = runtime::stepping::step(image, words, process, way);
    Printed {
        line: step_line(words, way, process, answer.code),
        more: true,
    }
}

// One command: its kind and as many bytes of its body, at most four, as there are.
pub fn turn(image: &[u8], words: &mut [u32], kind: u8, body: &[u8]) -> Printed
    requires { length words.old ≡ 8674 }
    ensures { Shows (turned image.now words.old kind body.now) result words.new }
{
    if body.len() != 4 {
        return stop();
    }
    match kind {
        1 => ask(image, words, 0, body),
        2 => ask(image, words, 1, body),
        _ => stop(),
    }
}
