// The sequencer's own stores, which go through the plane mask.
ghost use Rattle.std.specs.Prelude.{◌≡◌};
ghost use Rattle.machine_types.specs.Slices.{SameSlices};
ghost use Rattle.machine.specs.Memory.{lent};
ghost use Rattle.machine.specs.Answers.{outcome, store_said};
ghost use Rattle.machine.specs.Calls.{seq_plane_set, seq_plane_and, seq_plane_or};
ghost use Rattle.machine.specs.Step.{direct_step};
ghost use Rattle.sequencer.specs.Direct.{direct_store_call};

use machine_types::{Changed, LentToStore, PlaneOffset, Refusal, Sequencer};
use refusals_access::judge_direct;
use sequencer_masks::inner;
use vram_changes::inner::unchanged;
use vram_planes::PlaneStore;
use vram_planes::inner::store;

// The direct stores in one: judged, then stored where the mask has the plane, its byte and its eight pixels; else nothing.
// Inlined, so that an export with its slices in registers lays out no record of them.
#[inline(always)]
#[tactic(auto, using(crate::proofs::DirectLaws::stores))]
fn plane_store(
    seq: Sequencer,
    memory: &mut LentToStore,
    plane: usize,
    offset: PlaneOffset,
    a0: bool,
    kind: PlaneStore,
    byte: u8,
) -> Result<Changed, Refusal>
    ensures same_slices { SameSlices memory.old memory.new }
    ensures does { outcome (store_said result) (lent memory.new) ≡ direct_step seq (lent memory.old) (direct_store_call kind plane offset.0 a0 byte) }
{
    judge_direct(seq, memory.shape(), plane, offset)?;
    let mask = inner::mask(seq, offset.0, a0);
    if mask & (1 << plane) == 0 {
        return Ok(unchanged());
    }
    let at = inner::stored_at(seq, offset.0);
    Ok(store(memory, plane, at, kind, byte))
}

// A byte put into a plane where the mask has it.
pub fn plane_set(
    seq: Sequencer,
    memory: &mut LentToStore,
    plane: usize,
    offset: PlaneOffset,
    a0: bool,
    byte: u8,
) -> Result<Changed, Refusal>
    ensures same_slices { SameSlices memory.old memory.new }
    ensures does { outcome (store_said result) (lent memory.new) ≡ direct_step seq (lent memory.old) (seq_plane_set plane offset.0 a0 byte) }
{
    plane_store(seq, memory, plane, offset, a0, PlaneStore::Set, byte)
}

// The plane's byte `and` the one given, put in its place where the mask has the plane.
pub fn plane_and(
    seq: Sequencer,
    memory: &mut LentToStore,
    plane: usize,
    offset: PlaneOffset,
    a0: bool,
    byte: u8,
) -> Result<Changed, Refusal>
    ensures same_slices { SameSlices memory.old memory.new }
    ensures does { outcome (store_said result) (lent memory.new) ≡ direct_step seq (lent memory.old) (seq_plane_and plane offset.0 a0 byte) }
{
    plane_store(seq, memory, plane, offset, a0, PlaneStore::And, byte)
}

// The plane's byte `or` the one given, put in its place where the mask has the plane.
pub fn plane_or(
    seq: Sequencer,
    memory: &mut LentToStore,
    plane: usize,
    offset: PlaneOffset,
    a0: bool,
    byte: u8,
) -> Result<Changed, Refusal>
    ensures same_slices { SameSlices memory.old memory.new }
    ensures does { outcome (store_said result) (lent memory.new) ≡ direct_step seq (lent memory.old) (seq_plane_or plane offset.0 a0 byte) }
{
    plane_store(seq, memory, plane, offset, a0, PlaneStore::Or, byte)
}
