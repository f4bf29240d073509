// The program's run: a tape's bytes in, its lines out, from the program's own start.
ghost use Rattle.std.specs.Prelude.{◌≡◌};
ghost use Rattle.tape_machine.specs.Program.{printed, printed_of};

use crate::whole::run;
use machine_types::{GraphicsController, Lent, Sequencer};
use tape_machine::Ran;

// Plays a tape on n = 4,096, memory zero, both register sets at start. The lines stand at the start of out; refusal 10 as in run.
pub fn run_from_start(tape: &[u8], out: &mut [u8]) -> Ran
    ensures { printed result out.new ≡ printed_of tape.now out.old }
{
    let mut p0 = [0u8; 4096];
    let mut p1 = [0u8; 4096];
    let mut p2 = [0u8; 4096];
    let mut p3 = [0u8; 4096];
    let mut picture = [0u8; 32768];
    let mut memory = Lent {
        p0: &mut p0[..],
        p1: &mut p1[..],
        p2: &mut p2[..],
        p3: &mut p3[..],
        picture: &mut picture[..],
    };
    run(
        tape,
        GraphicsController::new(),
        Sequencer::new(),
        &mut memory,
        out,
    )
}
