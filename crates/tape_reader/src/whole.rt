// A whole tape, record by record: each record's line goes into a lent slice.
ghost use Rattle.std.specs.Prelude.{◌≡◌, ◌≤◌, length};
ghost use Rattle.machine_types.specs.Slices.{SameSlices};
ghost use Rattle.machine.specs.Memory.{lent};
ghost use Rattle.machine.specs.Step.{state};
ghost use Rattle.tape_machine.specs.Run.{operation_number, records_of, lines_of, tape_run, played_of, run_of};

use crate::records::Records;
use crate::text::Text;
use machine_types::{GraphicsController, LentToStore, Refusal, Sequencer};
use tape_calls::perform;
use tape_machine::{Ran, Told};
use tape_records::Command;

// The bytes of the longest line.
pub const LONGEST: usize = 84;

fn command_number(command: Command) -> u64
    ensures { result ≡ operation_number command }
{
    match command {
        Command::Reset => 0,
        Command::GcAddress(_) => 1,
        Command::GcData(_) => 2,
        Command::SeqAddress(_) => 3,
        Command::SeqData(_) => 4,
        Command::Read { .. } => 5,
        Command::Write { .. } => 6,
        Command::Peek { .. } => 7,
        Command::Show(_) => 8,
    }
}

// Plays a tape whose lines have room.
fn play(
    tape: &[u8],
    first_gc: GraphicsController,
    first_seq: Sequencer,
    memory: &mut LentToStore,
    out: &mut [u8],
) -> Ran
    requires { length (lines_of 1 (state first_gc first_seq (lent memory.old)) (records_of tape.now)) ≤ length out.old }
    ensures same_slices { SameSlices memory.old memory.new }
    ensures does { tape_run result (lent memory.new) out.new ≡ played_of tape.now (state first_gc first_seq (lent memory.old)) out.old }
{
    let mut gc = first_gc;
    let mut seq = first_seq;
    let mut text = Text { out, at: 0 };
    for (earlier, record) in (Records { rest: tape }).enumerate() {
        let number = earlier as u64 + 1;
        match record {
            Ok(whole) => {
                let done = perform(gc, seq, memory, whole.command);
                gc = done.gc;
                seq = done.seq;
                text.line(number, Some(command_number(whole.command)), done.told);
            }
            Err(broken) => text.line(number, broken.operation, Told::from(broken.fault)),
        }
    }
    Ran {
        answer: Ok(()),
        written: text.at,
        gc,
        seq,
    }
}

// Plays a tape; the lines stand at the start of out. Refusal 10 where out is shorter than the longest line for each byte of the tape.
pub fn run(
    tape: &[u8],
    gc: GraphicsController,
    seq: Sequencer,
    memory: &mut LentToStore,
    out: &mut [u8],
) -> Ran
    ensures same_slices { SameSlices memory.old memory.new }
    ensures does { tape_run result (lent memory.new) out.new ≡ run_of tape.now (state gc seq (lent memory.old)) out.old }
{
    if out.len() / LONGEST < tape.len() {
        return Ran {
            answer: Err(Refusal::Room),
            written: 0,
            gc,
            seq,
        };
    }
    play(tape, gc, seq, memory, out)
}
