// The calls of vram.rs that only read, in that file's order. Each is handed the whole of the lent memory.
#![tactic(auto)]

ghost use Rattle.std.specs.Prelude.{◌≡◌};
ghost use Rattle.machine.specs.Memory.{seen};
ghost use Rattle.machine.specs.Answers.{outcome, byte_said, pixel_said, older_said};
ghost use Rattle.machine.specs.Calls.{read_glyph, peek_u8, read_u8, read_linear, serialize_linear};
ghost use Rattle.machine.specs.Step.{vram_step};

use machine_types::{LentToRead, Part, PixelPlace, PlaneOffset, Refusal};

// Plane 2's byte.
pub fn read_glyph(memory: &LentToRead, offset: PlaneOffset) -> Result<u8, Refusal>
    ensures { outcome (byte_said result) (seen memory.now) ≡ vram_step (seen memory.now) (read_glyph offset.0) }
{
    refusals_memory::judge_offset(memory.shape(), offset)?;
    Ok(memory.p2[offset.0])
}

// A plane's byte.
pub fn peek_u8(memory: &LentToRead, plane: usize, offset: PlaneOffset) -> Result<u8, Refusal>
    ensures { outcome (byte_said result) (seen memory.now) ≡ vram_step (seen memory.now) (peek_u8 plane offset.0) }
{
    read_u8(memory, plane, offset)
}

// A plane's byte.
pub fn read_u8(memory: &LentToRead, plane: usize, offset: PlaneOffset) -> Result<u8, Refusal>
    ensures { outcome (byte_said result) (seen memory.now) ≡ vram_step (seen memory.now) (read_u8 plane offset.0) }
{
    refusals_memory::judge_plane(memory.shape(), plane, offset)?;
    Ok(vram_planes::inner::byte(memory, plane, offset.0))
}

// The pixel at a place.
pub fn read_linear(memory: &LentToRead, place: PixelPlace) -> Result<u8, Refusal>
    ensures { outcome (pixel_said result) (seen memory.now) ≡ vram_step (seen memory.now) (read_linear place.0) }
{
    refusals_memory::judge_place(memory.shape(), place)?;
    Ok(memory.picture[place.0])
}

// The caller's own eight pixels of an offset, or an empty part where refused.
pub fn serialize_linear<'p>(memory: &LentToRead<'_, 'p>, offset: PlaneOffset) -> Part<'p>
    ensures { outcome (older_said result) (seen memory.now) ≡ vram_step (seen memory.now) (serialize_linear offset.0) }
{
    let answer = refusals_memory::judge_shown(memory.shape(), offset);
    vram_pixels::inner::part(memory.picture, offset, answer)
}
