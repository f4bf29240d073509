// The calls that a host makes through a reference to a record, over its records and by value: the library puts back what they leave.
#![tactic(auto, unfolding(crate::specs::Hosted::sequencer_hosted, crate::specs::Hosted::graphics_hosted, crate::specs::Hosted::cpu_hosted))]

ghost use Rattle.std.specs.Prelude.{◌≡◌, [], Ok, Err};
ghost use Rattle.bits.specs.Bit.{pick};
ghost use Rattle.machine_types.specs.declared.answer.Refusal.TheVariants.{State};
ghost use Rattle.machine_types.specs.Slices.{SameSlices};
ghost use Rattle.machine.specs.Memory.{seen, lent};
ghost use Rattle.machine.specs.Answers.{one, part, changes, shown, no_pixels, outcome};
ghost use Rattle.machine.specs.Graphics.{read_mode, shift_mode, write_mode};
ghost use Rattle.machine.specs.Calls.{read_counter, write_counter, cpu_read, cpu_peek, cpu_write, serialize, show_pixels, gc_reset, gc_write_address, gc_write_data, seq_write_address, seq_write_data};
ghost use Rattle.machine.specs.Step.{lifted, graphics_step};
ghost use Rattle.answers.specs.Answers.{answer_said};
ghost use Rattle.answers.specs.Wide.{shown_of, pixels_shown, StoredAs};
ghost use Rattle.host_records.specs.Records.{is_set, known_both, counter_of, counter_told, register_told, value_told, with_count, with_latches, with_register, data_register, data_value, controller_of, controller_record_of, sequencer_of};
ghost use Rattle.host_calls.specs.Hosted.{held, cpu_hosted, graphics_hosted, sequencer_hosted};

use answers::{Answer, Shown, done, refused, unknown, unknown_shown, unknown_stored};
use graphics_controller::{cpu_peek_u8, cpu_read_u8, cpu_write_u8};
use host_records::counter::Counter;
use host_records::left::{
    DataAnswer, ReadAnswer, SequencerAnswer, WriteAnswer, of_graphics_left, of_sequencer_left,
    unknown_controller, unknown_sequencer,
};
use host_records::record::{ControllerRecord, SequencerRecord, is_set, known};
use machine_types::{
    After, GraphicsController, LentToRead, LentToStore, PlaneOffset, Refusal, Sequencer,
};

// Both records as the machine has them; refusal 6 where a selected register is none.
fn meant(
    gc: ControllerRecord,
    seq: SequencerRecord,
) -> Result<(GraphicsController, Sequencer), Refusal>
    ensures { result ≡ pick (known_both gc seq) (Ok (controller_of gc, sequencer_of seq)) (Err State) }
{
    if !known(gc, seq) {
        return Err(Refusal::State);
    }
    Ok((gc.into(), seq.into()))
}

// A read: the answer, the latches, and which counter goes up. The record itself stays with the caller.
pub fn read_of(
    gc: ControllerRecord,
    seq: SequencerRecord,
    memory: &LentToRead,
    address: usize,
    page: u8,
) -> ReadAnswer
    ensures { (outcome (answer_said result.answer) (held (with_count (counter_told result.counter) (with_latches result.latches gc)) (seen memory.now))
        ≡ cpu_hosted gc seq (seen memory.now) (one 0) (cpu_read address (is_set page)))
        × (counter_told result.counter ≡ counter_of result.answer.number (read_counter (read_mode (controller_of gc).registers))) }
{
    let Ok((controller, seq)) = meant(gc, seq) else {
        let latches = gc.latches;
        return ReadAnswer {
            answer: unknown(),
            latches,
            counter: None,
        };
    };
    let own = fields::gc::read_mode(controller.registers).into();
    let read = cpu_read_u8(controller, seq, memory, address, is_set(page));
    let latches = read.next.latches;
    ReadAnswer {
        answer: read.answer.into(),
        latches,
        counter: Counter::of(read.answer, own),
    }
}

// A write moves no register and no latch: which counter goes up comes back, beside how much it changed.
pub fn write_of(
    gc: ControllerRecord,
    seq: SequencerRecord,
    memory: &mut LentToStore,
    address: usize,
    page: u8,
    byte: u8,
) -> WriteAnswer
    ensures same_slices { SameSlices memory.old memory.new }
    ensures does { StoredAs result.answer (held (with_count (counter_told result.counter) gc) (lent memory.new))
        (cpu_hosted gc seq (lent memory.old) (changes 0 0 0 0) (cpu_write address (is_set page) byte)) }
    ensures counts { counter_told result.counter ≡ counter_of result.answer.number (write_counter (write_mode (controller_of gc).registers)) }
{
    let Ok((controller, seq)) = meant(gc, seq) else {
        return WriteAnswer {
            answer: unknown_stored(),
            counter: None,
        };
    };
    let own = fields::gc::write_mode(controller.registers).into();
    let written = cpu_write_u8(controller, seq, memory, address, is_set(page), byte);
    WriteAnswer {
        answer: written.answer.into(),
        counter: Counter::of(written.answer, own),
    }
}

// Plane 0's byte, or under chain-four that of plane offset mod 4; nothing moves.
#[tactic(auto, unfolding(crate::specs::Hosted::cpu_hosted), using(host_records::proofs::Laws::record_back))]
pub fn peek_of(
    gc: ControllerRecord,
    seq: SequencerRecord,
    memory: &LentToRead,
    address: usize,
    page: u8,
) -> Answer
    ensures { outcome (answer_said result) (held gc (seen memory.now))
        ≡ cpu_hosted gc seq (seen memory.now) (one 0) (cpu_peek address (is_set page)) }
{
    let Ok((gc, seq)) = meant(gc, seq) else {
        return unknown();
    };
    cpu_peek_u8(gc, seq, memory, address, is_set(page)).into()
}

// The eight pixels of an offset, by the older show: refused in two shift modes.
pub fn serialize_of(
    gc: ControllerRecord,
    seq: SequencerRecord,
    memory: &LentToRead,
    offset: usize,
) -> Shown
    ensures { result ≡ shown_of (cpu_hosted gc seq (seen memory.now) (part []) (serialize offset)).answer }
{
    let Ok((gc, seq)) = meant(gc, seq) else {
        return unknown_shown();
    };
    graphics_controller::serialize(gc, seq, memory, PlaneOffset(offset)).into()
}

// The eight pixels of an offset, in every shift mode.
pub fn show_of(
    gc: ControllerRecord,
    seq: SequencerRecord,
    memory: &LentToRead,
    offset: usize,
) -> Shown
    ensures { result ≡ pixels_shown (cpu_hosted gc seq (seen memory.now) (shown (shift_mode (controller_of gc).registers) no_pixels) (show_pixels offset)).answer }
{
    let Ok((gc, seq)) = meant(gc, seq) else {
        return unknown_shown();
    };
    graphics_controller::show_pixels(gc, seq, memory, PlaneOffset(offset)).into()
}

// Any record is taken; the host's own byte stays.
pub fn reset_of(gc: ControllerRecord) -> After<ControllerRecord, Answer>
    ensures { outcome (answer_said result.answer) result.next ≡ lifted (controller_record_of gc.spare) (graphics_step (controller_of gc) gc_reset) }
{
    let fresh = graphics_controller::reset(gc.into());
    After {
        answer: done(),
        next: ControllerRecord::of(fresh, gc.spare),
    }
}

pub fn address_of(gc: ControllerRecord, byte: u8) -> After<ControllerRecord, Answer>
    ensures { outcome (answer_said result.answer) result.next ≡ graphics_hosted gc (one 0) (gc_write_address byte) }
{
    let Ok(controller) = gc.meant() else {
        return unknown_controller(gc);
    };
    of_graphics_left(
        gc.spare,
        graphics_controller::write_address(controller, byte),
    )
}

// Data go to the selected register: it comes back with its value where it is stored, and none where the write is refused.
pub fn data_of(gc: ControllerRecord, byte: u8) -> DataAnswer
    ensures { (outcome (answer_said result.answer) (with_register (register_told result.stored) (value_told result.stored) gc) ≡ graphics_hosted gc (one 0) (gc_write_data byte))
        × (register_told result.stored ≡ data_register result.answer.number gc) × (value_told result.stored ≡ data_value result.answer.number gc byte) }
{
    let Ok(controller) = gc.meant() else {
        return DataAnswer {
            answer: unknown(),
            stored: None,
        };
    };
    let left = graphics_controller::write_data(controller, byte);
    match left.answer {
        Ok(()) => {
            let registers = left.next.registers;
            let value = graphics_registers::data_of(registers);
            DataAnswer {
                answer: done(),
                stored: Some((registers.register_selected, value)),
            }
        }
        Err(refusal) => DataAnswer {
            answer: refused(refusal),
            stored: None,
        },
    }
}

pub fn sequencer_address_of(seq: SequencerRecord, byte: u8) -> SequencerAnswer
    ensures { outcome (answer_said result.answer) result.seq ≡ sequencer_hosted seq (one 0) (seq_write_address byte) }
{
    let Ok(sequencer) = seq.meant() else {
        return unknown_sequencer(seq);
    };
    of_sequencer_left(seq, sequencer::write_address(sequencer, byte))
}

pub fn sequencer_data_of(seq: SequencerRecord, byte: u8) -> SequencerAnswer
    ensures { outcome (answer_said result.answer) result.seq ≡ sequencer_hosted seq (one 0) (seq_write_data byte) }
{
    let Ok(sequencer) = seq.meant() else {
        return unknown_sequencer(seq);
    };
    of_sequencer_left(seq, sequencer::write_data(sequencer, byte))
}
