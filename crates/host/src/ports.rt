// The controller's ports and fields. The two ports and the reset update the record where it stands; what only asks takes it by value.
#![tactic(auto, unfolding(host_calls::specs::Hosted::graphics_hosted))]

ghost use Rattle.std.specs.Prelude.{◌≡◌};
ghost use Rattle.machine.specs.Answers.{one, two, outcome};
ghost use Rattle.machine_types.specs.Start.{fresh_gc};
ghost use Rattle.machine.specs.Calls.{gc_reset, gc_chain, gc_chain4, gc_memory_map, gc_odd_even, gc_shift_mode, gc_read_address, gc_read_data, gc_write_address, gc_write_data, gc_map_address};
ghost use Rattle.machine.specs.Step.{lifted, graphics_step};
ghost use Rattle.answers.specs.Answers.{answer_said};
ghost use Rattle.answers.specs.Wide.{mapped_answer_said};
ghost use Rattle.host_records.specs.Records.{is_set, controller_of, controller_record_of};
ghost use Rattle.host_calls.specs.Hosted.{graphics_hosted};

use answers::{Answer, Mapped, unknown};
use host_calls::{address_of, data_of, reset_of};
use host_records::record::{ControllerRecord, is_set};
use machine_types::{GraphicsController, Refusal};

// The start record; the host's own byte is 0.
pub fn iddesmar_gc_new() -> ControllerRecord
    ensures { result ≡ controller_record_of 0 fresh_gc }
{
    ControllerRecord::of(GraphicsController::new(), 0)
}

// Any record is taken; latches and counters go back to the start too, and the host's own byte stays.
pub fn iddesmar_gc_reset(gc: &mut ControllerRecord) -> Answer
    ensures { outcome (answer_said result) gc.new ≡ lifted (controller_record_of gc.old.spare) (graphics_step (controller_of gc.old) gc_reset) }
{
    let left = reset_of(*gc);
    *gc = left.next;
    left.answer
}

pub fn iddesmar_gc_write_address(gc: &mut ControllerRecord, byte: u8) -> Answer
    ensures { outcome (answer_said result) gc.new ≡ graphics_hosted gc.old (one 0) (gc_write_address byte) }
{
    let left = address_of(*gc, byte);
    *gc = left.next;
    left.answer
}

pub fn iddesmar_gc_write_data(gc: &mut ControllerRecord, byte: u8) -> Answer
    ensures { outcome (answer_said result) gc.new ≡ graphics_hosted gc.old (one 0) (gc_write_data byte) }
{
    let written = data_of(*gc, byte);
    gc.store(written.stored);
    written.answer
}

pub fn iddesmar_gc_read_address(gc: ControllerRecord) -> Answer
    ensures { outcome (answer_said result) gc ≡ graphics_hosted gc (one 0) gc_read_address }
{
    let Ok(controller) = gc.meant() else {
        return unknown();
    };
    graphics_controller::read_address(controller).into()
}

pub fn iddesmar_gc_read_data(gc: ControllerRecord) -> Answer
    ensures { outcome (answer_said result) gc ≡ graphics_hosted gc (one 0) gc_read_data }
{
    let Ok(controller) = gc.meant() else {
        return unknown();
    };
    graphics_controller::read_data(controller).into()
}

pub fn iddesmar_gc_chain(gc: ControllerRecord) -> Answer
    ensures { outcome (answer_said result) gc ≡ graphics_hosted gc (one 0) gc_chain }
{
    let Ok(controller) = gc.meant() else {
        return unknown();
    };
    graphics_controller::chain(controller).into()
}

pub fn iddesmar_gc_chain4(gc: ControllerRecord) -> Answer
    ensures { outcome (answer_said result) gc ≡ graphics_hosted gc (one 0) gc_chain4 }
{
    let Ok(controller) = gc.meant() else {
        return unknown();
    };
    graphics_controller::chain4(controller).into()
}

pub fn iddesmar_gc_memory_map(gc: ControllerRecord) -> Answer
    ensures { outcome (answer_said result) gc ≡ graphics_hosted gc (one 0) gc_memory_map }
{
    let Ok(controller) = gc.meant() else {
        return unknown();
    };
    graphics_controller::memory_map(controller).into()
}

pub fn iddesmar_gc_odd_even(gc: ControllerRecord) -> Answer
    ensures { outcome (answer_said result) gc ≡ graphics_hosted gc (one 0) gc_odd_even }
{
    let Ok(controller) = gc.meant() else {
        return unknown();
    };
    graphics_controller::odd_even(controller).into()
}

pub fn iddesmar_gc_shift_mode(gc: ControllerRecord) -> Answer
    ensures { outcome (answer_said result) gc ≡ graphics_hosted gc (one 0) gc_shift_mode }
{
    let Ok(controller) = gc.meant() else {
        return unknown();
    };
    graphics_controller::shift_mode(controller).into()
}

pub fn iddesmar_gc_map_address(gc: ControllerRecord, address: usize, page: u8) -> Mapped
    ensures { outcome (mapped_answer_said result) gc ≡ graphics_hosted gc (two 0 0) (gc_map_address address (is_set page)) }
{
    let Ok(controller) = gc.meant() else {
        return Mapped::from(Err(Refusal::State));
    };
    graphics_controller::map_address(controller, address, is_set(page)).into()
}
