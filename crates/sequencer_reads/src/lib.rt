// The sequencer's direct calls that only read memory, the offset taken as it stands, `gc_read_u8` excepted.
#![tactic(auto, using(refusals_access::proofs::DirectJudged::plane_asked, sequencer_masks::proofs::Laws::gc_read_at_le, crate::proofs::Laws::part_asked), unfolding(machine::specs::Step::direct_step, machine::specs::Calls::direct_plan, machine::specs::Deeds::perform, machine::specs::Deeds::value_of, machine::specs::Deeds::memory_after, machine::specs::Step::vram_step, machine::specs::Calls::vram_plan))]

ghost use Rattle.std.specs.Prelude.{◌≡◌};
ghost use Rattle.machine.specs.Memory.{seen};
ghost use Rattle.machine.specs.Answers.{outcome, byte_said, pixel_said, older_said, done_said};
ghost use Rattle.machine.specs.Sequencer.{fits_seq};
ghost use Rattle.machine.specs.Calls.{refuse, shown_number, seq_cpu_read_u8, seq_gc_read_u8, seq_peek_u8, seq_read_linear, seq_serialize_linear};
ghost use Rattle.machine.specs.Step.{direct_step};

use machine_types::{LentToRead, Part, PixelPlace, PlaneOffset, Refusal, Sequencer, Shape};
use refusals_access::judge_direct;
use refusals_records::judge_seq;
use sequencer_masks::inner::gc_read_at;
use vram_planes::inner::byte;

// A plane's byte at the offset as it stands, chain-four or not.
pub fn cpu_read_u8(
    seq: Sequencer,
    memory: &LentToRead,
    plane: usize,
    offset: PlaneOffset,
    a0: bool,
) -> Result<u8, Refusal>
    ensures { outcome (byte_said result) (seen memory.now) ≡ direct_step seq (seen memory.now) (seq_cpu_read_u8 plane offset.0 a0) }
{
    judge_direct(seq, memory.shape(), plane, offset)?;
    Ok(byte(memory, plane, offset.0))
}

// A plane's byte; sequential with chain-four set reads at the offset with its low two bits clear.
pub fn gc_read_u8(
    seq: Sequencer,
    memory: &LentToRead,
    plane: usize,
    offset: PlaneOffset,
    a0: bool,
) -> Result<u8, Refusal>
    ensures { outcome (byte_said result) (seen memory.now) ≡ direct_step seq (seen memory.now) (seq_gc_read_u8 plane offset.0 a0) }
{
    judge_direct(seq, memory.shape(), plane, offset)?;
    Ok(byte(memory, plane, gc_read_at(seq, offset.0)))
}

// A plane's byte, as `cpu_read_u8` reads it.
pub fn peek_u8(
    seq: Sequencer,
    memory: &LentToRead,
    plane: usize,
    offset: PlaneOffset,
    a0: bool,
) -> Result<u8, Refusal>
    ensures { outcome (byte_said result) (seen memory.now) ≡ direct_step seq (seen memory.now) (seq_peek_u8 plane offset.0 a0) }
{
    cpu_read_u8(seq, memory, plane, offset, a0)
}

// The pixel at a place.
pub fn read_linear(seq: Sequencer, memory: &LentToRead, place: PixelPlace) -> Result<u8, Refusal>
    ensures { outcome (pixel_said result) (seen memory.now) ≡ direct_step seq (seen memory.now) (seq_read_linear place.0) }
{
    judge_seq(seq)?;
    vram_reads::read_linear(memory, place)
}

// Refusals 6, 1, 5: of the older show.
fn judge_shown(seq: Sequencer, shape: Shape, offset: PlaneOffset) -> Result<(), Refusal>
    ensures { (done_said result).number ≡ refuse (fits_seq seq) 6 (shown_number shape offset.0) }
{
    judge_seq(seq)?;
    refusals_memory::judge_shown(shape, offset)
}

// The caller's own eight pixels of an offset, or an empty part where refused.
pub fn serialize_linear<'p>(
    seq: Sequencer,
    memory: &LentToRead<'_, 'p>,
    offset: PlaneOffset,
) -> Part<'p>
    ensures { outcome (older_said result) (seen memory.now) ≡ direct_step seq (seen memory.now) (seq_serialize_linear offset.0) }
{
    let answer = judge_shown(seq, memory.shape(), offset);
    vram_pixels::inner::part(memory.picture, offset, answer)
}
