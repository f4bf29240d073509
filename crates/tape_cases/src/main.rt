// Many short tapes: standard input has each as its length, one byte, and its bytes; after each tape's lines comes a line '='.
#![tactic(auto)]

fn main(rt: HostRuntime) {
    let mut input = [0u8; 4096];
    let count = streams::read_full(&mut rt.stdin(), &mut input);
    each(rt, &input[..count]);
}

fn each(rt: HostRuntime, mut tapes: &[u8]) {
    while let [length, rest @ ..] = tapes {
        let length = usize::from(*length);
        if length > rest.len() {
            return;
        }
        tape_program::play_tape(rt, &rest[..length]);
        let _ = streams::write_all(&mut rt.stdout(), b"=\n");
        tapes = &rest[length..];
    }
}
