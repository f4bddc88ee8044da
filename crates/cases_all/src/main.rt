// Plays the cases that are run and compared: document 01's edges without a star, the example runs of source document 004 forward and
// back with values and cause graphs, and the four errors that look right. They come as a script on standard input, which
// docs/src/independent/tests/cases.rs has in readable form; docs/src/independent/src/bin/play.rs describes its records and the
// lines. What is proved is that this is safe and ends; what it prints is compared with the stored output.
#![tactic(auto)]

mod graph;
mod print;
mod words;

// Code and numbers of judging.
fn judged(code: u32, place: u32, blocks: u32, peak: u32) {
    print::letter(b'J');
    print::decimal(code);
    print::decimal(place);
    print::decimal(blocks);
    print::decimal(peak);
    print::letter(b'\n');
}

fn judge(image: &[u8]) {
    match judge::judge(image) {
        Ok(found) => judged(0, 0, found.blocks, found.peak),
        Err(refused) => judged(refused.code.number(), refused.place, 0, 0),
    }
}

fn start(image: &[u8], first: &[u32], machine: &mut [u32]) {
    let answer = runtime::start(image, first, machine);
    print::letter(b'S');
    print::decimal(answer.code);
    print::decimal(answer.place);
    print::letter(b'\n');
}

// So many steps; the code of the last.
fn make_steps(image: &[u8], machine: &mut [u32], process: u32, direction: u32, times: u32) -> u32 {
    let mut code = 0;
    for _ in 0..times {
        code = runtime::stepping::step(image, machine, process, direction).code;
    }
    code
}

fn steps(image: &[u8], machine: &mut [u32], process: u32, direction: u32, times: u32) {
    let code = make_steps(image, machine, process, direction, times);
    print::letter(if direction == 0 { b'F' } else { b'B' });
    print::hexadecimal(process);
    print::decimal(code);
    print::decimal(words::get(machine, 0));
    print::decimal(words::get(machine, 1));
    print::letter(b'\n');
}

// A record on the image that was judged last.
fn on_image(image: &[u8], first: &[u32], machine: &mut [u32], kind: u8, a: u32, b: u32) {
    match kind {
        1 => steps(image, machine, a, 0, b),
        2 => steps(image, machine, a, 1, b),
        3 => judge(image),
        5 => start(image, first, machine),
        8 => graph::graph(image, machine),
        _ => {}
    }
}

// A record on words alone.
fn on_words(first: &mut [u32], machine: &mut [u32], kind: u8, a: u32, b: u32) {
    match kind {
        4 => words::set(first, a as usize, b),
        6 => words::set(machine, a as usize, b),
        7 => words::show(machine, a, b),
        _ => {}
    }
}

fn title(text: &[u8]) {
    io::write_all(1, text);
    print::letter(b'\n');
}

// How many bytes stand behind a record: an image's or a title's.
fn behind(kind: u8, a: u32) -> usize {
    match kind {
        3 | 9 => a as usize,
        _ => 0,
    }
}

// Where the next record stands, and the image that was judged last.
#[derive(Clone, Copy)]
struct Reached {
    at: usize,
    from: usize,
    to: usize,
}

fn print_title(script: &[u8], from: usize, to: usize) {
    if let Some(text) = script.get(from..to) {
        title(text);
    }
}

fn use_image(
    script: &[u8],
    from: usize,
    to: usize,
    first: &[u32],
    machine: &mut [u32],
    kind: u8,
    a: u32,
    b: u32,
) {
    if let Some(image) = script.get(from..to) {
        on_image(image, first, machine, kind, a, b);
    }
}

// The image of a record that has one, else the one before.
fn image_of(reached: Reached, kind: u8, body: usize, end: usize) -> Reached {
    match kind {
        3 => Reached {
            at: end,
            from: body,
            to: end,
        },
        _ => Reached { at: end, ..reached },
    }
}

// One record. Past the script's end every byte is 0, and nothing is done.
fn turn(script: &[u8], reached: Reached, first: &mut [u32], machine: &mut [u32]) -> Reached {
    let at = reached.at;
    let kind = words::byte(script, at);
    let a = words::word(script, words::moved(at, 1));
    let b = words::word(script, words::moved(at, 5));
    let body = words::moved(at, 9);
    let end = words::moved(body, behind(kind, a));
    let next = image_of(reached, kind, body, end);
    if kind == 9 {
        print_title(script, body, end);
    }
    on_words(first, machine, kind, a, b);
    use_image(script, next.from, next.to, first, machine, kind, a, b);
    next
}

fn play_on(script: &[u8], first: &mut [u32], machine: &mut [u32]) {
    let mut reached = Reached {
        at: 0,
        from: 0,
        to: 0,
    };
    for _ in 0..script.len() {
        reached = turn(script, reached, first, machine);
    }
}

// A whole script, on a machine of its own.
fn play(script: &[u8]) {
    let mut first = [0u32; 288];
    let mut machine = [0u32; 8674];
    play_on(script, &mut first, &mut machine);
}

fn main() {
    let mut script = io::large_buffer();
    let n = io::read_full(0, &mut script);
    play(&script[..n]);
}
