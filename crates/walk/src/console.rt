// A session on files and standard input: reads `prog.cril` and `first.mem` in the current folder, then commands on standard input as they come, and
// writes a line for each. The texts and the steps are those of the crate `session`; here is only what reads and writes.
ghost use Rattle.std.specs.Prelude.{◌≡◌, length};
ghost use Rattle.io.specs.Counts.{IsPrefixLen};

use std::fs::File;
use std::os::fd::AsRawFd;

// Where commands come from, and where lines go.
const STANDARD_INPUT: i32 = 0;

const STANDARD_OUTPUT: i32 = 1;

// Puts a file's bytes at the front of a buffer that is one byte longer than the file may be, and answers how many there are. A
// file that can't be opened or read counts as empty.
fn read_file(rt: &HostRuntime, name: &str, buffer: &mut [u8]) -> usize
    ensures { IsPrefixLen result buffer.new }
{
    match File::open(rt, name) {
        Ok(file) => io::read_full(file.as_raw_fd(), buffer),
        Err(_) => 0,
    }
}

// Reads the body of a command of a known kind. An unknown kind has none, so that its line does not wait for more.
fn read_body(kind: u8, body: &mut [u8]) -> usize
    ensures { IsPrefixLen result body.new }
{
    match kind {
        1 | 2 => io::read_full(STANDARD_INPUT, body),
        _ => 0,
    }
}

// Starts the machine, writes the line of a refusal, and answers whether the session goes on.
fn begin(image: &[u8], memory: &[u8], words: &mut [u32]) -> bool
    requires { length words.old ≡ 8674 }
{
    let printed = session::begin(image, memory, words);
    io::write_all(STANDARD_OUTPUT, printed.line.text());
    printed.more
}

// Reads one command, makes its step, writes its line, and answers whether the session goes on.
fn turn(image: &[u8], words: &mut [u32]) -> bool
    requires { length words.old ≡ 8674 }
{
    let mut kind = [0u8; 1];
    if io::read_full(STANDARD_INPUT, &mut kind) == 0 {
        return false;
    }
    let mut body = [0u8; 4];
    let n = read_body(kind[0], &mut body);
    let printed = session::turn(image, words, kind[0], &body[..n]);
    io::write_all(STANDARD_OUTPUT, printed.line.text()) && printed.more
}

// A proved loop has to end, and nothing says that the commands do: the turns are counted to a number that no run reaches.
fn run(image: &[u8], words: &mut [u32])
    requires { length words.old ≡ 8674 }
{
    for _ in 0..u64::MAX {
        if !turn(image, words) {
            break;
        }
    }
}

// The whole session. What it writes no contract can speak of; the texts are those that the crate `session` proves.
pub fn play(rt: &HostRuntime) {
    let mut image = [0u8; 4097];
    let m = read_file(rt, "prog.cril", &mut image);
    let mut memory = [0u8; 1153];
    let n = read_file(rt, "first.mem", &mut memory);
    let mut words = [0u32; 8674];
    if begin(&image[..m], &memory[..n], &mut words) {
        run(&image[..m], &mut words);
    }
}
