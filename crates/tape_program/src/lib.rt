// The program of document 01 as two functions, so that each program that tries a tape runs the very same ones: what is read goes to
// tape_reader's proved run, and its lines are written.
#![tactic(auto)]

// Reads the first 16,384 bytes of standard input as a tape, and plays it.
pub fn play(rt: HostRuntime) {
    let mut input = [0u8; 16384];
    let count = streams::read_full(&mut rt.stdin(), &mut input);
    play_tape(rt, &input[..count]);
}

// Writes a tape's lines to standard output. A tape has at most 16,384 bytes.
pub fn play_tape(rt: HostRuntime, tape: &[u8]) {
    // the longest line for each byte of the longest tape
    let mut lines = [0u8; 1376256];
    let ran = tape_reader::run_from_start(tape, &mut lines);
    emit(rt, &lines[..ran.written]);
}

// Writes a text; where that fails, a line to standard error says so, and there is no other sign.
fn emit(rt: HostRuntime, text: &[u8]) {
    if streams::write_all(&mut rt.stdout(), text).is_err() {
        let _ = streams::write_all(
            &mut rt.stderr(),
            b"tape: standard output could not be written\n",
        );
    }
}
