// The video memory of vram.rs: its stores, in that file's order, and its reads (`vram_reads`). Each call is handed the whole of the lent memory.
#![tactic(auto)]

ghost use Rattle.std.specs.Prelude.{◌≡◌};
ghost use Rattle.machine_types.specs.Slices.{SamePicture, SameSlices};
ghost use Rattle.machine.specs.Memory.{lent, remade_in};
ghost use Rattle.machine.specs.Answers.{outcome, store_said, done_said};
ghost use Rattle.machine.specs.Calls.{write_u8, deplane as remakes, plane_set, plane_and, plane_or};
ghost use Rattle.machine.specs.Step.{vram_step};
ghost use Rattle.vram.specs.Stores.{vram_store_call};

use machine_types::{Changed, LentToRemake, LentToStore, PlaneOffset, Refusal};
use vram_planes::PlaneStore;
pub use vram_reads::{peek_u8, read_glyph, read_linear, read_u8, serialize_linear};

// A byte stored into a plane, and its offset's eight pixels remade.
pub fn write_u8(
    memory: &mut LentToStore,
    plane: usize,
    offset: PlaneOffset,
    byte: u8,
) -> Result<Changed, Refusal>
    ensures same_slices { SameSlices memory.old memory.new }
    ensures does { outcome (store_said result) (lent memory.new) ≡ vram_step (lent memory.old) (write_u8 plane offset.0 byte) }
{
    plane_set(memory, plane, offset, byte)
}

// An offset's eight pixels remade from the planes.
pub fn deplane(memory: &mut LentToRemake, offset: PlaneOffset) -> Result<(), Refusal>
    ensures same_slices { SamePicture memory.old memory.new }
    ensures does { outcome (done_said result) (remade_in memory.new) ≡ vram_step (remade_in memory.old) (remakes offset.0) }
{
    refusals_memory::judge_offset(memory.shape(), offset)?;
    vram_pixels::inner::remake(memory, offset.0);
    Ok(())
}

// The stores by plane in one: judged, then stored, and the offset's eight pixels remade.
fn plane_store(
    memory: &mut LentToStore,
    plane: usize,
    offset: PlaneOffset,
    kind: PlaneStore,
    byte: u8,
) -> Result<Changed, Refusal>
    ensures same_slices { SameSlices memory.old memory.new }
    ensures does { outcome (store_said result) (lent memory.new) ≡ vram_step (lent memory.old) (vram_store_call kind plane offset.0 byte) }
{
    refusals_memory::judge_plane(memory.shape(), plane, offset)?;
    Ok(vram_planes::inner::store(memory, plane, offset.0, kind, byte))
}

// A byte put into a plane, and its offset's eight pixels remade.
pub fn plane_set(
    memory: &mut LentToStore,
    plane: usize,
    offset: PlaneOffset,
    byte: u8,
) -> Result<Changed, Refusal>
    ensures same_slices { SameSlices memory.old memory.new }
    ensures does { outcome (store_said result) (lent memory.new) ≡ vram_step (lent memory.old) (plane_set plane offset.0 byte) }
{
    plane_store(memory, plane, offset, PlaneStore::Set, byte)
}

// The plane's byte `and` the one given, put in its place, and its offset's eight pixels remade.
pub fn plane_and(
    memory: &mut LentToStore,
    plane: usize,
    offset: PlaneOffset,
    byte: u8,
) -> Result<Changed, Refusal>
    ensures same_slices { SameSlices memory.old memory.new }
    ensures does { outcome (store_said result) (lent memory.new) ≡ vram_step (lent memory.old) (plane_and plane offset.0 byte) }
{
    plane_store(memory, plane, offset, PlaneStore::And, byte)
}

// The plane's byte `or` the one given, put in its place, and its offset's eight pixels remade.
pub fn plane_or(
    memory: &mut LentToStore,
    plane: usize,
    offset: PlaneOffset,
    byte: u8,
) -> Result<Changed, Refusal>
    ensures same_slices { SameSlices memory.old memory.new }
    ensures does { outcome (store_said result) (lent memory.new) ≡ vram_step (lent memory.old) (plane_or plane offset.0 byte) }
{
    plane_store(memory, plane, offset, PlaneStore::Or, byte)
}
