// The controller's ports and fields. The two ports and the reset update the record where it stands; what only asks takes it by value.
ghost use Rattle.std.specs.Prelude.{◌≡◌};
ghost use Rattle.machine.specs.Answers.{one, two, outcome};
ghost use Rattle.machine_types.specs.Start.{fresh_gc};
ghost use Rattle.machine.specs.Calls.{gc_reset, gc_chain, gc_chain4, gc_memory_map, gc_odd_even, gc_shift_mode, gc_read_address, gc_read_data, gc_write_address, gc_write_data, gc_map_address};
ghost use Rattle.machine.specs.Step.{lifted, graphics_step};
ghost use Rattle.answers.specs.Answers.{answer_said};
ghost use Rattle.answers.specs.Wide.{mapped_answer_said};
ghost use Rattle.host_records.specs.Records.{is_set, controller_of, controller_record_of};
ghost use Rattle.host_calls.specs.Hosted.{graphics_hosted};

use answers::{Answer, Mapped};
use host_records::record::ControllerRecord;

// The start record; the host's own byte is 0.
#[unsafe(no_mangle)]
pub extern "C" fn iddesmar_gc_new() -> ControllerRecord
    ensures { result ≡ controller_record_of 0 fresh_gc }
{
    host::ports::iddesmar_gc_new()
}

// Any record is taken; latches and counters go back to the start too, and the host's own byte stays.
#[unsafe(no_mangle)]
pub extern "C" fn iddesmar_gc_reset(gc: &mut ControllerRecord) -> Answer
    ensures { outcome (answer_said result) gc.new ≡ lifted (controller_record_of gc.old.spare) (graphics_step (controller_of gc.old) gc_reset) }
{
    host::ports::iddesmar_gc_reset(gc)
}

#[unsafe(no_mangle)]
pub extern "C" fn iddesmar_gc_write_address(gc: &mut ControllerRecord, byte: u8) -> Answer
    ensures { outcome (answer_said result) gc.new ≡ graphics_hosted gc.old (one 0) (gc_write_address byte) }
{
    host::ports::iddesmar_gc_write_address(gc, byte)
}

#[unsafe(no_mangle)]
pub extern "C" fn iddesmar_gc_write_data(gc: &mut ControllerRecord, byte: u8) -> Answer
    ensures { outcome (answer_said result) gc.new ≡ graphics_hosted gc.old (one 0) (gc_write_data byte) }
{
    host::ports::iddesmar_gc_write_data(gc, byte)
}

#[unsafe(no_mangle)]
pub extern "C" fn iddesmar_gc_read_address(gc: ControllerRecord) -> Answer
    ensures { outcome (answer_said result) gc ≡ graphics_hosted gc (one 0) gc_read_address }
{
    host::ports::iddesmar_gc_read_address(gc)
}

#[unsafe(no_mangle)]
pub extern "C" fn iddesmar_gc_read_data(gc: ControllerRecord) -> Answer
    ensures { outcome (answer_said result) gc ≡ graphics_hosted gc (one 0) gc_read_data }
{
    host::ports::iddesmar_gc_read_data(gc)
}

#[unsafe(no_mangle)]
pub extern "C" fn iddesmar_gc_chain(gc: ControllerRecord) -> Answer
    ensures { outcome (answer_said result) gc ≡ graphics_hosted gc (one 0) gc_chain }
{
    host::ports::iddesmar_gc_chain(gc)
}

#[unsafe(no_mangle)]
pub extern "C" fn iddesmar_gc_chain4(gc: ControllerRecord) -> Answer
    ensures { outcome (answer_said result) gc ≡ graphics_hosted gc (one 0) gc_chain4 }
{
    host::ports::iddesmar_gc_chain4(gc)
}

#[unsafe(no_mangle)]
pub extern "C" fn iddesmar_gc_memory_map(gc: ControllerRecord) -> Answer
    ensures { outcome (answer_said result) gc ≡ graphics_hosted gc (one 0) gc_memory_map }
{
    host::ports::iddesmar_gc_memory_map(gc)
}

#[unsafe(no_mangle)]
pub extern "C" fn iddesmar_gc_odd_even(gc: ControllerRecord) -> Answer
    ensures { outcome (answer_said result) gc ≡ graphics_hosted gc (one 0) gc_odd_even }
{
    host::ports::iddesmar_gc_odd_even(gc)
}

#[unsafe(no_mangle)]
pub extern "C" fn iddesmar_gc_shift_mode(gc: ControllerRecord) -> Answer
    ensures { outcome (answer_said result) gc ≡ graphics_hosted gc (one 0) gc_shift_mode }
{
    host::ports::iddesmar_gc_shift_mode(gc)
}

#[unsafe(no_mangle)]
pub extern "C" fn iddesmar_gc_map_address(gc: ControllerRecord, address: usize, page: u8) -> Mapped
    ensures { outcome (mapped_answer_said result) gc ≡ graphics_hosted gc (two 0 0) (gc_map_address address (is_set page)) }
{
    host::ports::iddesmar_gc_map_address(gc, address, page)
}
