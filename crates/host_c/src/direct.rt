// The sequencer's own calls on memory, on its record by value.
ghost use Rattle.std.specs.Prelude.{◌≡◌, []};
ghost use Rattle.machine.specs.Memory.{mem};
ghost use Rattle.machine.specs.Answers.{one, pixel, part, changes, outcome};
ghost use Rattle.machine.specs.Calls.{seq_cpu_read_u8, seq_peek_u8, seq_gc_read_u8, seq_read_linear, seq_serialize_linear, seq_plane_set, seq_plane_and, seq_plane_or};
ghost use Rattle.answers.specs.Answers.{answer_said, pixel_answer_said};
ghost use Rattle.answers.specs.Wide.{shown_of, StoredAs};
ghost use Rattle.host_records.specs.Records.{is_set};
ghost use Rattle.host_calls.specs.Hosted.{direct_hosted};

use answers::{Answer, Shown, Stored};
use host_records::record::SequencerRecord;
use machine_types::Lent;

#[unsafe(no_mangle)]
pub extern "C" fn iddesmar_seq_cpu_read_u8(
    seq: SequencerRecord,
    p0: &[u8],
    p1: &[u8],
    p2: &[u8],
    p3: &[u8],
    picture: &[u8],
    plane: usize,
    offset: usize,
    a0: u8,
) -> Answer
    ensures { outcome (answer_said result) (mem p0.now p1.now p2.now p3.now picture.now)
        ≡ direct_hosted seq (mem p0.now p1.now p2.now p3.now picture.now) (one 0) (seq_cpu_read_u8 plane offset (is_set a0)) }
{
    let memory = Lent {
        p0,
        p1,
        p2,
        p3,
        picture,
    };
    host::direct::iddesmar_seq_cpu_read_u8(seq, &memory, plane, offset, a0)
}

#[unsafe(no_mangle)]
pub extern "C" fn iddesmar_seq_peek_u8(
    seq: SequencerRecord,
    p0: &[u8],
    p1: &[u8],
    p2: &[u8],
    p3: &[u8],
    picture: &[u8],
    plane: usize,
    offset: usize,
    a0: u8,
) -> Answer
    ensures { outcome (answer_said result) (mem p0.now p1.now p2.now p3.now picture.now)
        ≡ direct_hosted seq (mem p0.now p1.now p2.now p3.now picture.now) (one 0) (seq_peek_u8 plane offset (is_set a0)) }
{
    let memory = Lent {
        p0,
        p1,
        p2,
        p3,
        picture,
    };
    host::direct::iddesmar_seq_peek_u8(seq, &memory, plane, offset, a0)
}

#[unsafe(no_mangle)]
pub extern "C" fn iddesmar_seq_gc_read_u8(
    seq: SequencerRecord,
    p0: &[u8],
    p1: &[u8],
    p2: &[u8],
    p3: &[u8],
    picture: &[u8],
    plane: usize,
    offset: usize,
    a0: u8,
) -> Answer
    ensures { outcome (answer_said result) (mem p0.now p1.now p2.now p3.now picture.now)
        ≡ direct_hosted seq (mem p0.now p1.now p2.now p3.now picture.now) (one 0) (seq_gc_read_u8 plane offset (is_set a0)) }
{
    let memory = Lent {
        p0,
        p1,
        p2,
        p3,
        picture,
    };
    host::direct::iddesmar_seq_gc_read_u8(seq, &memory, plane, offset, a0)
}

#[unsafe(no_mangle)]
pub extern "C" fn iddesmar_seq_read_linear(
    seq: SequencerRecord,
    p0: &[u8],
    p1: &[u8],
    p2: &[u8],
    p3: &[u8],
    picture: &[u8],
    place: usize,
) -> Answer
    ensures { outcome (pixel_answer_said result) (mem p0.now p1.now p2.now p3.now picture.now) ≡ direct_hosted seq (mem p0.now p1.now p2.now p3.now picture.now) (pixel 0) (seq_read_linear place) }
{
    let memory = Lent {
        p0,
        p1,
        p2,
        p3,
        picture,
    };
    host::direct::iddesmar_seq_read_linear(seq, &memory, place)
}

#[unsafe(no_mangle)]
pub extern "C" fn iddesmar_seq_serialize_linear(
    seq: SequencerRecord,
    p0: &[u8],
    p1: &[u8],
    p2: &[u8],
    p3: &[u8],
    picture: &[u8],
    offset: usize,
) -> Shown
    ensures { result ≡ shown_of (direct_hosted seq (mem p0.now p1.now p2.now p3.now picture.now) (part []) (seq_serialize_linear offset)).answer }
{
    let memory = Lent {
        p0,
        p1,
        p2,
        p3,
        picture,
    };
    host::direct::iddesmar_seq_serialize_linear(seq, &memory, offset)
}

#[unsafe(no_mangle)]
pub extern "C" fn iddesmar_seq_plane_set(
    seq: SequencerRecord,
    p0: &mut [u8],
    p1: &mut [u8],
    p2: &mut [u8],
    p3: &mut [u8],
    picture: &mut [u8],
    plane: usize,
    offset: usize,
    a0: u8,
    byte: u8,
) -> Stored
    ensures { StoredAs result (mem p0.new p1.new p2.new p3.new picture.new)
        (direct_hosted seq (mem p0.old p1.old p2.old p3.old picture.old) (changes 0 0 0 0) (seq_plane_set plane offset (is_set a0) byte)) }
{
    let mut memory = Lent {
        p0,
        p1,
        p2,
        p3,
        picture,
    };
    host::direct::iddesmar_seq_plane_set(seq, &mut memory, plane, offset, a0, byte)
}

#[unsafe(no_mangle)]
pub extern "C" fn iddesmar_seq_plane_and(
    seq: SequencerRecord,
    p0: &mut [u8],
    p1: &mut [u8],
    p2: &mut [u8],
    p3: &mut [u8],
    picture: &mut [u8],
    plane: usize,
    offset: usize,
    a0: u8,
    byte: u8,
) -> Stored
    ensures { StoredAs result (mem p0.new p1.new p2.new p3.new picture.new)
        (direct_hosted seq (mem p0.old p1.old p2.old p3.old picture.old) (changes 0 0 0 0) (seq_plane_and plane offset (is_set a0) byte)) }
{
    let mut memory = Lent {
        p0,
        p1,
        p2,
        p3,
        picture,
    };
    host::direct::iddesmar_seq_plane_and(seq, &mut memory, plane, offset, a0, byte)
}

#[unsafe(no_mangle)]
pub extern "C" fn iddesmar_seq_plane_or(
    seq: SequencerRecord,
    p0: &mut [u8],
    p1: &mut [u8],
    p2: &mut [u8],
    p3: &mut [u8],
    picture: &mut [u8],
    plane: usize,
    offset: usize,
    a0: u8,
    byte: u8,
) -> Stored
    ensures { StoredAs result (mem p0.new p1.new p2.new p3.new picture.new)
        (direct_hosted seq (mem p0.old p1.old p2.old p3.old picture.old) (changes 0 0 0 0) (seq_plane_or plane offset (is_set a0) byte)) }
{
    let mut memory = Lent {
        p0,
        p1,
        p2,
        p3,
        picture,
    };
    host::direct::iddesmar_seq_plane_or(seq, &mut memory, plane, offset, a0, byte)
}
