// Document 01's program: a tape on standard input, its lines on standard output.
#![tactic(auto)]

fn main(rt: HostRuntime) {
    tape_program::play(rt);
}
