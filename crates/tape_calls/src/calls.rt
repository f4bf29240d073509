// A record performed: the calls that its command asks for, and what they answer.
ghost use Rattle.std.specs.Prelude.{◌≡◌};
ghost use Rattle.machine_types.specs.Slices.{SameSlices};
ghost use Rattle.machine.specs.Memory.{seen, lent};
ghost use Rattle.machine.specs.Answers.{outcome};
ghost use Rattle.machine.specs.Calls.{cpu_peek, show_pixels};
ghost use Rattle.machine.specs.Step.{state, cpu, step};
ghost use Rattle.tape_machine.specs.Told.{told_said};
ghost use Rattle.tape_machine.specs.Performs.{performed};

use machine_types::{After, GraphicsController, LentToRead, LentToStore, PlaneOffset, Sequencer};
use tape_machine::Told;
use tape_records::Command;

// What was answered, and both records as they are left.
#[derive(Clone, Copy)]
pub struct Performed {
    pub told: Told,
    pub gc: GraphicsController,
    pub seq: Sequencer,
}

// A call that leaves the sequencer's record as it was ..
fn graphics_done<A>(after: After<GraphicsController, A>, seq: Sequencer) -> Performed
where
    Told: From<A>,
    ensures told { ⟦<Told as From<A>>⟧.from_gives after.answer result.told }
    ensures gc { result.gc ≡ after.next }
    ensures seq { result.seq ≡ seq }
{
    Performed {
        told: Told::from(after.answer),
        gc: after.next,
        seq,
    }
}

// .. and one that leaves the controller's.
fn sequencer_done<A>(gc: GraphicsController, after: After<Sequencer, A>) -> Performed
where
    Told: From<A>,
    ensures told { ⟦<Told as From<A>>⟧.from_gives after.answer result.told }
    ensures gc { result.gc ≡ gc }
    ensures seq { result.seq ≡ after.next }
{
    Performed {
        told: Told::from(after.answer),
        gc,
        seq: after.next,
    }
}

fn peek(
    gc: GraphicsController,
    seq: Sequencer,
    memory: &LentToRead,
    address: usize,
    page: bool,
) -> Performed
    ensures { outcome (told_said result.told) (state result.gc result.seq (seen memory.now)) ≡ step (state gc seq (seen memory.now)) (cpu (cpu_peek address page)) }
{
    let byte = graphics_controller::cpu_peek_u8(gc, seq, memory, address, page);
    Performed {
        told: Told::from(byte),
        gc,
        seq,
    }
}

// A show in the shift mode that the registers have.
fn show(
    gc: GraphicsController,
    seq: Sequencer,
    memory: &LentToRead,
    offset: PlaneOffset,
) -> Performed
    ensures { outcome (told_said result.told) (state result.gc result.seq (seen memory.now)) ≡ step (state gc seq (seen memory.now)) (cpu (show_pixels offset.0)) }
{
    let mode = fields::gc::shift_mode(gc.registers);
    let pixels = graphics_controller::show_pixels(gc, seq, memory, offset);
    Performed {
        told: Told::from((mode, pixels)),
        gc,
        seq,
    }
}

// A command carried out.
pub fn perform(
    gc: GraphicsController,
    seq: Sequencer,
    memory: &mut LentToStore,
    command: Command,
) -> Performed
    ensures same_slices { SameSlices memory.old memory.new }
    ensures does { outcome (told_said result.told) (state result.gc result.seq (lent memory.new)) ≡ performed (state gc seq (lent memory.old)) command }
{
    match command {
        Command::Reset => Performed {
            told: Told::from(Ok(())),
            gc: graphics_controller::reset(gc),
            seq: sequencer::reset(seq),
        },
        Command::GcAddress(byte) => graphics_done(
            graphics_controller::write_address(gc, byte),
            seq,
        ),
        Command::GcData(byte) => graphics_done(graphics_controller::write_data(gc, byte), seq),
        Command::SeqAddress(byte) => sequencer_done(gc, sequencer::write_address(seq, byte)),
        Command::SeqData(byte) => sequencer_done(gc, sequencer::write_data(seq, byte)),
        Command::Read { address, page } => graphics_done(
            graphics_controller::cpu_read_u8(gc, seq, &memory.as_read(), address, page),
            seq,
        ),
        Command::Write {
            address,
            page,
            byte,
        } => graphics_done(
            graphics_controller::cpu_write_u8(gc, seq, memory, address, page, byte),
            seq,
        ),
        Command::Peek { address, page } => peek(gc, seq, &memory.as_read(), address, page),
        Command::Show(offset) => show(gc, seq, &memory.as_read(), offset),
    }
}
