// The processor's accesses, both records lent: a read and a write update the controller's where it stands, and the other three leave it alone.
ghost use Rattle.std.specs.Prelude.{◌≡◌, []};
ghost use Rattle.machine.specs.Memory.{mem};
ghost use Rattle.machine.specs.Answers.{one, part, changes, shown, no_pixels, outcome};
ghost use Rattle.machine.specs.Graphics.{shift_mode};
ghost use Rattle.machine.specs.Calls.{cpu_read, cpu_peek, cpu_write, serialize, show_pixels};
ghost use Rattle.answers.specs.Answers.{answer_said};
ghost use Rattle.answers.specs.Wide.{shown_of, pixels_shown, StoredAs};
ghost use Rattle.host_records.specs.Records.{is_set, controller_of};
ghost use Rattle.host_calls.specs.Hosted.{held, cpu_hosted};

use answers::{Answer, Shown, Stored};
use host_records::record::{ControllerRecord, SequencerRecord};
use machine_types::Lent;

#[unsafe(no_mangle)]
pub extern "C" fn iddesmar_gc_cpu_read_u8_2(
    gc: &mut ControllerRecord,
    seq: &SequencerRecord,
    p0: &[u8],
    p1: &[u8],
    p2: &[u8],
    p3: &[u8],
    picture: &[u8],
    address: usize,
    page: u8,
) -> Answer
    ensures { outcome (answer_said result) (held gc.new (mem p0.now p1.now p2.now p3.now picture.now))
        ≡ cpu_hosted gc.old seq.now (mem p0.now p1.now p2.now p3.now picture.now) (one 0) (cpu_read address (is_set page)) }
{
    let memory = Lent {
        p0,
        p1,
        p2,
        p3,
        picture,
    };
    host::access::iddesmar_gc_cpu_read_u8_2(gc, seq, &memory, address, page)
}

#[unsafe(no_mangle)]
pub extern "C" fn iddesmar_gc_cpu_write_u8_2(
    gc: &mut ControllerRecord,
    seq: &SequencerRecord,
    p0: &mut [u8],
    p1: &mut [u8],
    p2: &mut [u8],
    p3: &mut [u8],
    picture: &mut [u8],
    address: usize,
    page: u8,
    byte: u8,
) -> Stored
    ensures { StoredAs result (held gc.new (mem p0.new p1.new p2.new p3.new picture.new))
        (cpu_hosted gc.old seq.now (mem p0.old p1.old p2.old p3.old picture.old) (changes 0 0 0 0) (cpu_write address (is_set page) byte)) }
{
    let mut memory = Lent {
        p0,
        p1,
        p2,
        p3,
        picture,
    };
    host::access::iddesmar_gc_cpu_write_u8_2(gc, seq, &mut memory, address, page, byte)
}

// Plane 0's byte, or under chain-four that of plane offset mod 4; nothing moves.
#[unsafe(no_mangle)]
pub extern "C" fn iddesmar_gc_cpu_peek_u8_2(
    gc: &ControllerRecord,
    seq: &SequencerRecord,
    p0: &[u8],
    p1: &[u8],
    p2: &[u8],
    p3: &[u8],
    picture: &[u8],
    address: usize,
    page: u8,
) -> Answer
    ensures { outcome (answer_said result) (held gc.now (mem p0.now p1.now p2.now p3.now picture.now))
        ≡ cpu_hosted gc.now seq.now (mem p0.now p1.now p2.now p3.now picture.now) (one 0) (cpu_peek address (is_set page)) }
{
    let memory = Lent {
        p0,
        p1,
        p2,
        p3,
        picture,
    };
    host::access::iddesmar_gc_cpu_peek_u8_2(gc, seq, &memory, address, page)
}

// The eight pixels of an offset, by the older show: refused in two shift modes.
#[unsafe(no_mangle)]
pub extern "C" fn iddesmar_gc_serialize_2(
    gc: &ControllerRecord,
    seq: &SequencerRecord,
    p0: &[u8],
    p1: &[u8],
    p2: &[u8],
    p3: &[u8],
    picture: &[u8],
    offset: usize,
) -> Shown
    ensures { result ≡ shown_of (cpu_hosted gc.now seq.now (mem p0.now p1.now p2.now p3.now picture.now) (part []) (serialize offset)).answer }
{
    let memory = Lent {
        p0,
        p1,
        p2,
        p3,
        picture,
    };
    host::access::iddesmar_gc_serialize_2(gc, seq, &memory, offset)
}

// The eight pixels of an offset, in every shift mode.
#[unsafe(no_mangle)]
pub extern "C" fn iddesmar_gc_show_pixels_2(
    gc: &ControllerRecord,
    seq: &SequencerRecord,
    p0: &[u8],
    p1: &[u8],
    p2: &[u8],
    p3: &[u8],
    picture: &[u8],
    offset: usize,
) -> Shown
    ensures { result ≡ pixels_shown (cpu_hosted gc.now seq.now (mem p0.now p1.now p2.now p3.now picture.now)
        (shown (shift_mode (controller_of gc.now).registers) no_pixels) (show_pixels offset)).answer }
{
    let memory = Lent {
        p0,
        p1,
        p2,
        p3,
        picture,
    };
    host::access::iddesmar_gc_show_pixels_2(gc, seq, &memory, offset)
}
