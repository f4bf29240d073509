// The calls on memory alone, as vram.rs has them: no record is handed in.
ghost use Rattle.std.specs.Prelude.{◌≡◌};
ghost use Rattle.machine_types.specs.Slices.{SamePicture, SameSlices};
ghost use Rattle.machine.specs.Memory.{seen, lent, remade_in};
ghost use Rattle.machine.specs.Answers.{outcome};
ghost use Rattle.machine.specs.Calls.{read_u8, peek_u8, read_glyph, read_linear, serialize_linear, write_u8, plane_set, plane_and, plane_or, deplane as remakes};
ghost use Rattle.machine.specs.Step.{vram_step};
ghost use Rattle.answers.specs.Answers.{answer_said, pixel_answer_said};
ghost use Rattle.answers.specs.Wide.{shown_of, StoredAs};

use answers::{Answer, Shown, Stored, of_pixel};
use machine_types::{LentToRead, LentToRemake, LentToStore, PixelPlace, PlaneOffset};

pub fn iddesmar_vram_read_u8(memory: &LentToRead, plane: usize, offset: usize) -> Answer
    ensures { outcome (answer_said result) (seen memory.now) ≡ vram_step (seen memory.now) (read_u8 plane offset) }
{
    vram::read_u8(memory, plane, PlaneOffset(offset)).into()
}

pub fn iddesmar_vram_peek_u8(memory: &LentToRead, plane: usize, offset: usize) -> Answer
    ensures { outcome (answer_said result) (seen memory.now) ≡ vram_step (seen memory.now) (peek_u8 plane offset) }
{
    vram::peek_u8(memory, plane, PlaneOffset(offset)).into()
}

pub fn iddesmar_vram_read_glyph(memory: &LentToRead, offset: usize) -> Answer
    ensures { outcome (answer_said result) (seen memory.now) ≡ vram_step (seen memory.now) (read_glyph offset) }
{
    vram::read_glyph(memory, PlaneOffset(offset)).into()
}

pub fn iddesmar_vram_read_linear(memory: &LentToRead, place: usize) -> Answer
    ensures { outcome (pixel_answer_said result) (seen memory.now) ≡ vram_step (seen memory.now) (read_linear place) }
{
    of_pixel(vram::read_linear(memory, PixelPlace(place)))
}

pub fn iddesmar_vram_serialize_linear(memory: &LentToRead, offset: usize) -> Shown
    ensures { result ≡ shown_of (vram_step (seen memory.now) (serialize_linear offset)).answer }
{
    vram::serialize_linear(memory, PlaneOffset(offset)).into()
}

pub fn iddesmar_vram_write_u8(
    memory: &mut LentToStore,
    plane: usize,
    offset: usize,
    byte: u8,
) -> Stored
    ensures same_slices { SameSlices memory.old memory.new }
    ensures does { StoredAs result (lent memory.new) (vram_step (lent memory.old) (write_u8 plane offset byte)) }
{
    vram::write_u8(memory, plane, PlaneOffset(offset), byte).into()
}

pub fn iddesmar_vram_plane_set(
    memory: &mut LentToStore,
    plane: usize,
    offset: usize,
    byte: u8,
) -> Stored
    ensures same_slices { SameSlices memory.old memory.new }
    ensures does { StoredAs result (lent memory.new) (vram_step (lent memory.old) (plane_set plane offset byte)) }
{
    vram::plane_set(memory, plane, PlaneOffset(offset), byte).into()
}

pub fn iddesmar_vram_plane_and(
    memory: &mut LentToStore,
    plane: usize,
    offset: usize,
    byte: u8,
) -> Stored
    ensures same_slices { SameSlices memory.old memory.new }
    ensures does { StoredAs result (lent memory.new) (vram_step (lent memory.old) (plane_and plane offset byte)) }
{
    vram::plane_and(memory, plane, PlaneOffset(offset), byte).into()
}

pub fn iddesmar_vram_plane_or(
    memory: &mut LentToStore,
    plane: usize,
    offset: usize,
    byte: u8,
) -> Stored
    ensures same_slices { SameSlices memory.old memory.new }
    ensures does { StoredAs result (lent memory.new) (vram_step (lent memory.old) (plane_or plane offset byte)) }
{
    vram::plane_or(memory, plane, PlaneOffset(offset), byte).into()
}

pub fn iddesmar_vram_deplane(memory: &mut LentToRemake, offset: usize) -> Answer
    ensures same_slices { SamePicture memory.old memory.new }
    ensures does { outcome (answer_said result) (remade_in memory.new) ≡ vram_step (remade_in memory.old) (remakes offset) }
{
    vram::deplane(memory, PlaneOffset(offset)).into()
}
