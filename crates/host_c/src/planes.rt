// The calls on memory alone: no record is handed in.
ghost use Rattle.std.specs.Prelude.{◌≡◌};
ghost use Rattle.machine.specs.Memory.{mem};
ghost use Rattle.machine.specs.Answers.{outcome};
ghost use Rattle.machine.specs.Calls.{read_u8, peek_u8, read_glyph, read_linear, serialize_linear, write_u8, plane_set, plane_and, plane_or, deplane as remakes};
ghost use Rattle.machine.specs.Step.{vram_step};
ghost use Rattle.answers.specs.Answers.{answer_said, pixel_answer_said};
ghost use Rattle.answers.specs.Wide.{shown_of, StoredAs};

use answers::{Answer, Shown, Stored};
use machine_types::Lent;

#[unsafe(no_mangle)]
pub extern "C" fn iddesmar_vram_read_u8(
    p0: &[u8],
    p1: &[u8],
    p2: &[u8],
    p3: &[u8],
    picture: &[u8],
    plane: usize,
    offset: usize,
) -> Answer
    ensures { outcome (answer_said result) (mem p0.now p1.now p2.now p3.now picture.now) ≡ vram_step (mem p0.now p1.now p2.now p3.now picture.now) (read_u8 plane offset) }
{
    let memory = Lent {
        p0,
        p1,
        p2,
        p3,
        picture,
    };
    host::planes::iddesmar_vram_read_u8(&memory, plane, offset)
}

#[unsafe(no_mangle)]
pub extern "C" fn iddesmar_vram_peek_u8(
    p0: &[u8],
    p1: &[u8],
    p2: &[u8],
    p3: &[u8],
    picture: &[u8],
    plane: usize,
    offset: usize,
) -> Answer
    ensures { outcome (answer_said result) (mem p0.now p1.now p2.now p3.now picture.now) ≡ vram_step (mem p0.now p1.now p2.now p3.now picture.now) (peek_u8 plane offset) }
{
    let memory = Lent {
        p0,
        p1,
        p2,
        p3,
        picture,
    };
    host::planes::iddesmar_vram_peek_u8(&memory, plane, offset)
}

#[unsafe(no_mangle)]
pub extern "C" fn iddesmar_vram_read_glyph(
    p0: &[u8],
    p1: &[u8],
    p2: &[u8],
    p3: &[u8],
    picture: &[u8],
    offset: usize,
) -> Answer
    ensures { outcome (answer_said result) (mem p0.now p1.now p2.now p3.now picture.now) ≡ vram_step (mem p0.now p1.now p2.now p3.now picture.now) (read_glyph offset) }
{
    let memory = Lent {
        p0,
        p1,
        p2,
        p3,
        picture,
    };
    host::planes::iddesmar_vram_read_glyph(&memory, offset)
}

#[unsafe(no_mangle)]
pub extern "C" fn iddesmar_vram_read_linear(
    p0: &[u8],
    p1: &[u8],
    p2: &[u8],
    p3: &[u8],
    picture: &[u8],
    place: usize,
) -> Answer
    ensures { outcome (pixel_answer_said result) (mem p0.now p1.now p2.now p3.now picture.now) ≡ vram_step (mem p0.now p1.now p2.now p3.now picture.now) (read_linear place) }
{
    let memory = Lent {
        p0,
        p1,
        p2,
        p3,
        picture,
    };
    host::planes::iddesmar_vram_read_linear(&memory, place)
}

#[unsafe(no_mangle)]
pub extern "C" fn iddesmar_vram_serialize_linear(
    p0: &[u8],
    p1: &[u8],
    p2: &[u8],
    p3: &[u8],
    picture: &[u8],
    offset: usize,
) -> Shown
    ensures { result ≡ shown_of (vram_step (mem p0.now p1.now p2.now p3.now picture.now) (serialize_linear offset)).answer }
{
    let memory = Lent {
        p0,
        p1,
        p2,
        p3,
        picture,
    };
    host::planes::iddesmar_vram_serialize_linear(&memory, offset)
}

#[unsafe(no_mangle)]
pub extern "C" fn iddesmar_vram_write_u8(
    p0: &mut [u8],
    p1: &mut [u8],
    p2: &mut [u8],
    p3: &mut [u8],
    picture: &mut [u8],
    plane: usize,
    offset: usize,
    byte: u8,
) -> Stored
    ensures { StoredAs result (mem p0.new p1.new p2.new p3.new picture.new) (vram_step (mem p0.old p1.old p2.old p3.old picture.old) (write_u8 plane offset byte)) }
{
    let mut memory = Lent {
        p0,
        p1,
        p2,
        p3,
        picture,
    };
    host::planes::iddesmar_vram_write_u8(&mut memory, plane, offset, byte)
}

#[unsafe(no_mangle)]
pub extern "C" fn iddesmar_vram_plane_set(
    p0: &mut [u8],
    p1: &mut [u8],
    p2: &mut [u8],
    p3: &mut [u8],
    picture: &mut [u8],
    plane: usize,
    offset: usize,
    byte: u8,
) -> Stored
    ensures { StoredAs result (mem p0.new p1.new p2.new p3.new picture.new) (vram_step (mem p0.old p1.old p2.old p3.old picture.old) (plane_set plane offset byte)) }
{
    let mut memory = Lent {
        p0,
        p1,
        p2,
        p3,
        picture,
    };
    host::planes::iddesmar_vram_plane_set(&mut memory, plane, offset, byte)
}

#[unsafe(no_mangle)]
pub extern "C" fn iddesmar_vram_plane_and(
    p0: &mut [u8],
    p1: &mut [u8],
    p2: &mut [u8],
    p3: &mut [u8],
    picture: &mut [u8],
    plane: usize,
    offset: usize,
    byte: u8,
) -> Stored
    ensures { StoredAs result (mem p0.new p1.new p2.new p3.new picture.new) (vram_step (mem p0.old p1.old p2.old p3.old picture.old) (plane_and plane offset byte)) }
{
    let mut memory = Lent {
        p0,
        p1,
        p2,
        p3,
        picture,
    };
    host::planes::iddesmar_vram_plane_and(&mut memory, plane, offset, byte)
}

#[unsafe(no_mangle)]
pub extern "C" fn iddesmar_vram_plane_or(
    p0: &mut [u8],
    p1: &mut [u8],
    p2: &mut [u8],
    p3: &mut [u8],
    picture: &mut [u8],
    plane: usize,
    offset: usize,
    byte: u8,
) -> Stored
    ensures { StoredAs result (mem p0.new p1.new p2.new p3.new picture.new) (vram_step (mem p0.old p1.old p2.old p3.old picture.old) (plane_or plane offset byte)) }
{
    let mut memory = Lent {
        p0,
        p1,
        p2,
        p3,
        picture,
    };
    host::planes::iddesmar_vram_plane_or(&mut memory, plane, offset, byte)
}

#[unsafe(no_mangle)]
pub extern "C" fn iddesmar_vram_deplane(
    p0: &[u8],
    p1: &[u8],
    p2: &[u8],
    p3: &[u8],
    picture: &mut [u8],
    offset: usize,
) -> Answer
    ensures { outcome (answer_said result) (mem p0.now p1.now p2.now p3.now picture.new) ≡ vram_step (mem p0.now p1.now p2.now p3.now picture.old) (remakes offset) }
{
    let mut memory = Lent {
        p0,
        p1,
        p2,
        p3,
        picture,
    };
    host::planes::iddesmar_vram_deplane(&mut memory, offset)
}
