// The session program, document 01: `prog.cril` and `first.mem` in the current folder, commands on standard input.
#![tactic(auto)]

mod console;

fn main(rt: HostRuntime) {
    console::play(&rt);
}
