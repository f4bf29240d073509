// The sequencer's own calls on memory, on its record by value.
#![tactic(auto, unfolding(host_calls::specs::Hosted::direct_hosted), using(host_calls::proofs::Laws::direct_left))]

ghost use Rattle.std.specs.Prelude.{◌≡◌, []};
ghost use Rattle.machine_types.specs.Slices.{SameSlices};
ghost use Rattle.machine.specs.Memory.{seen, lent};
ghost use Rattle.machine.specs.Answers.{one, pixel, part, changes, outcome};
ghost use Rattle.machine.specs.Calls.{seq_cpu_read_u8, seq_peek_u8, seq_gc_read_u8, seq_read_linear, seq_serialize_linear, seq_plane_set, seq_plane_and, seq_plane_or};
ghost use Rattle.answers.specs.Answers.{answer_said, pixel_answer_said};
ghost use Rattle.answers.specs.Wide.{shown_of, StoredAs};
ghost use Rattle.host_records.specs.Records.{is_set};
ghost use Rattle.host_calls.specs.Hosted.{direct_hosted};

use answers::{Answer, Shown, Stored, of_pixel, unknown, unknown_shown, unknown_stored};
use host_records::record::{SequencerRecord, is_set};
use machine_types::{LentToRead, LentToStore, PixelPlace, PlaneOffset};

pub fn iddesmar_seq_cpu_read_u8(
    seq: SequencerRecord,
    memory: &LentToRead,
    plane: usize,
    offset: usize,
    a0: u8,
) -> Answer
    ensures { outcome (answer_said result) (seen memory.now) ≡ direct_hosted seq (seen memory.now) (one 0) (seq_cpu_read_u8 plane offset (is_set a0)) }
{
    let Ok(seq) = seq.meant() else {
        return unknown();
    };
    sequencer::cpu_read_u8(seq, memory, plane, PlaneOffset(offset), is_set(a0)).into()
}

pub fn iddesmar_seq_peek_u8(
    seq: SequencerRecord,
    memory: &LentToRead,
    plane: usize,
    offset: usize,
    a0: u8,
) -> Answer
    ensures { outcome (answer_said result) (seen memory.now) ≡ direct_hosted seq (seen memory.now) (one 0) (seq_peek_u8 plane offset (is_set a0)) }
{
    let Ok(seq) = seq.meant() else {
        return unknown();
    };
    sequencer::peek_u8(seq, memory, plane, PlaneOffset(offset), is_set(a0)).into()
}

pub fn iddesmar_seq_gc_read_u8(
    seq: SequencerRecord,
    memory: &LentToRead,
    plane: usize,
    offset: usize,
    a0: u8,
) -> Answer
    ensures { outcome (answer_said result) (seen memory.now) ≡ direct_hosted seq (seen memory.now) (one 0) (seq_gc_read_u8 plane offset (is_set a0)) }
{
    let Ok(seq) = seq.meant() else {
        return unknown();
    };
    sequencer::gc_read_u8(seq, memory, plane, PlaneOffset(offset), is_set(a0)).into()
}

pub fn iddesmar_seq_read_linear(seq: SequencerRecord, memory: &LentToRead, place: usize) -> Answer
    ensures { outcome (pixel_answer_said result) (seen memory.now) ≡ direct_hosted seq (seen memory.now) (pixel 0) (seq_read_linear place) }
{
    let Ok(seq) = seq.meant() else {
        return unknown();
    };
    of_pixel(sequencer::read_linear(seq, memory, PixelPlace(place)))
}

pub fn iddesmar_seq_serialize_linear(
    seq: SequencerRecord,
    memory: &LentToRead,
    offset: usize,
) -> Shown
    ensures { result ≡ shown_of (direct_hosted seq (seen memory.now) (part []) (seq_serialize_linear offset)).answer }
{
    let Ok(seq) = seq.meant() else {
        return unknown_shown();
    };
    sequencer::serialize_linear(seq, memory, PlaneOffset(offset)).into()
}

pub fn iddesmar_seq_plane_set(
    seq: SequencerRecord,
    memory: &mut LentToStore,
    plane: usize,
    offset: usize,
    a0: u8,
    byte: u8,
) -> Stored
    ensures same_slices { SameSlices memory.old memory.new }
    ensures does { StoredAs result (lent memory.new) (direct_hosted seq (lent memory.old) (changes 0 0 0 0) (seq_plane_set plane offset (is_set a0) byte)) }
{
    let Ok(seq) = seq.meant() else {
        return unknown_stored();
    };
    sequencer::plane_set(seq, memory, plane, PlaneOffset(offset), is_set(a0), byte).into()
}

pub fn iddesmar_seq_plane_and(
    seq: SequencerRecord,
    memory: &mut LentToStore,
    plane: usize,
    offset: usize,
    a0: u8,
    byte: u8,
) -> Stored
    ensures same_slices { SameSlices memory.old memory.new }
    ensures does { StoredAs result (lent memory.new) (direct_hosted seq (lent memory.old) (changes 0 0 0 0) (seq_plane_and plane offset (is_set a0) byte)) }
{
    let Ok(seq) = seq.meant() else {
        return unknown_stored();
    };
    sequencer::plane_and(seq, memory, plane, PlaneOffset(offset), is_set(a0), byte).into()
}

pub fn iddesmar_seq_plane_or(
    seq: SequencerRecord,
    memory: &mut LentToStore,
    plane: usize,
    offset: usize,
    a0: u8,
    byte: u8,
) -> Stored
    ensures same_slices { SameSlices memory.old memory.new }
    ensures does { StoredAs result (lent memory.new) (direct_hosted seq (lent memory.old) (changes 0 0 0 0) (seq_plane_or plane offset (is_set a0) byte)) }
{
    let Ok(seq) = seq.meant() else {
        return unknown_stored();
    };
    sequencer::plane_or(seq, memory, plane, PlaneOffset(offset), is_set(a0), byte).into()
}
