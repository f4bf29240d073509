// Runs a list of calls through the port and prints a line for each. Every program of lists runs this very engine.
#![tactic(auto)]

mod session;
mod settings;

use list_lines::line::Line;
use session::Session;

// How many bytes of a list are read at once, and how many in all, its end among them: counted by bytes, as a read may be short.
const AT_ONCE: usize = 65536;

const MOST: usize = 1_000_000 * AT_ONCE;

// Runs the list on standard input.
pub fn run(rt: HostRuntime) {
    let mut session = Session::new(rt.stdout());
    let mut line = Line::new();
    let mut input = [0u8; AT_ONCE];
    let mut left = MOST;
    while left > 0 {
        let most = left.min(AT_ONCE);
        let count = streams::read_full(&mut rt.stdin(), &mut input[..most]);
        // at the list's end its last line ends too, with a newline or without
        let bytes = if count == 0 { b"\n" } else { &input[..count] };
        for byte in bytes {
            if let Some(listed) = line.feed(*byte) {
                session.take(listed);
            }
        }
        if count == 0 {
            return;
        }
        left -= count;
    }
}
