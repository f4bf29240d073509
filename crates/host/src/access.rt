// The processor's accesses, both records lent: a read and a write update the controller's where it stands, and the other three leave it alone.
ghost use Rattle.std.specs.Prelude.{◌≡◌, []};
ghost use Rattle.machine_types.specs.Slices.{SameSlices};
ghost use Rattle.machine.specs.Memory.{seen, lent};
ghost use Rattle.machine.specs.Answers.{one, part, changes, shown, no_pixels, outcome};
ghost use Rattle.machine.specs.Graphics.{shift_mode};
ghost use Rattle.machine.specs.Calls.{cpu_read, cpu_peek, cpu_write, serialize, show_pixels};
ghost use Rattle.answers.specs.Answers.{answer_said};
ghost use Rattle.answers.specs.Wide.{shown_of, pixels_shown, StoredAs};
ghost use Rattle.host_records.specs.Records.{is_set, controller_of};
ghost use Rattle.host_calls.specs.Hosted.{held, cpu_hosted};

use answers::{Answer, Shown, Stored};
use host_calls::{peek_of, read_of, serialize_of, show_of, write_of};
use host_records::record::{ControllerRecord, SequencerRecord};
use machine_types::{LentToRead, LentToStore};

pub fn iddesmar_gc_cpu_read_u8_2(
    gc: &mut ControllerRecord,
    seq: &SequencerRecord,
    memory: &LentToRead,
    address: usize,
    page: u8,
) -> Answer
    ensures { outcome (answer_said result) (held gc.new (seen memory.now)) ≡ cpu_hosted gc.old seq.now (seen memory.now) (one 0) (cpu_read address (is_set page)) }
{
    let read = read_of(*gc, *seq, memory, address, page);
    let latches = read.latches;
    gc.latches = latches;
    gc.count(read.counter);
    read.answer
}

pub fn iddesmar_gc_cpu_write_u8_2(
    gc: &mut ControllerRecord,
    seq: &SequencerRecord,
    memory: &mut LentToStore,
    address: usize,
    page: u8,
    byte: u8,
) -> Stored
    ensures same_slices { SameSlices memory.old memory.new }
    ensures does { StoredAs result (held gc.new (lent memory.new)) (cpu_hosted gc.old seq.now (lent memory.old) (changes 0 0 0 0) (cpu_write address (is_set page) byte)) }
{
    let written = write_of(*gc, *seq, memory, address, page, byte);
    gc.count(written.counter);
    written.answer
}

// Plane 0's byte, or under chain-four that of plane offset mod 4; nothing moves.
pub fn iddesmar_gc_cpu_peek_u8_2(
    gc: &ControllerRecord,
    seq: &SequencerRecord,
    memory: &LentToRead,
    address: usize,
    page: u8,
) -> Answer
    ensures { outcome (answer_said result) (held gc.now (seen memory.now)) ≡ cpu_hosted gc.now seq.now (seen memory.now) (one 0) (cpu_peek address (is_set page)) }
{
    peek_of(*gc, *seq, memory, address, page)
}

// The eight pixels of an offset, by the older show: refused in two shift modes.
pub fn iddesmar_gc_serialize_2(
    gc: &ControllerRecord,
    seq: &SequencerRecord,
    memory: &LentToRead,
    offset: usize,
) -> Shown
    ensures { result ≡ shown_of (cpu_hosted gc.now seq.now (seen memory.now) (part []) (serialize offset)).answer }
{
    serialize_of(*gc, *seq, memory, offset)
}

// The eight pixels of an offset, in every shift mode.
pub fn iddesmar_gc_show_pixels_2(
    gc: &ControllerRecord,
    seq: &SequencerRecord,
    memory: &LentToRead,
    offset: usize,
) -> Shown
    ensures { result ≡ pixels_shown (cpu_hosted gc.now seq.now (seen memory.now) (shown (shift_mode (controller_of gc.now).registers) no_pixels) (show_pixels offset)).answer }
{
    show_of(*gc, *seq, memory, offset)
}
