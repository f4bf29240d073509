// Refusals 1, 4, 3 and 5: the lengths of planes and picture, and what a call names in them.
#![tactic(auto)]

ghost use Rattle.std.specs.Prelude.{◌≡◌, nat_lt};
ghost use Rattle.machine.specs.Memory.{size, sound};
ghost use Rattle.machine.specs.Answers.{done_said, refusal_number};
ghost use Rattle.machine.specs.Calls.{refuse, plane_number, offset_number, place_number, shown_number};

use machine_types::{PixelPlace, PlaneOffset, Refusal, Shape};
use std::num::wrapping_sub_usize;

// Not refusal 1: the plane lengths agree, n is from 1 to 65,536, and the picture is 8n long.
pub fn shaped(shape: Shape) -> bool
    ensures { result ≡ sound shape }
{
    let n = shape.p0;
    // 0 where all four planes are n long
    let planes = (n ^ shape.p1) | (n ^ shape.p2) | (n ^ shape.p3);
    // 0 where the picture is 8n long
    let picture = shape.picture ^ (n << 3);
    // 0 for n from 1 to 65,536: 0 wraps to the largest number
    let size = wrapping_sub_usize(n, 1) >> 16;
    planes | picture | size == 0
}

// Refusal 1: of every call on memory.
pub fn judge_memory(shape: Shape) -> Result<(), Refusal>
    ensures { (done_said result).number ≡ refuse (sound shape) 1 0 }
{
    if shaped(shape) {
        Ok(())
    } else {
        Err(Refusal::Memory)
    }
}

// Refusals 1, 4, 3: of a call that names a plane and an offset.
#[tactic(auto, unfolding(machine::specs::Calls::plane_number))]
pub fn judge_plane(shape: Shape, plane: usize, offset: PlaneOffset) -> Result<(), Refusal>
    ensures { (done_said result).number ≡ plane_number shape plane offset.0 }
{
    judge_memory(shape)?;
    if plane > 3 {
        return Err(Refusal::Plane);
    }
    if offset.0 >= shape.p0 {
        return Err(Refusal::Offset);
    }
    Ok(())
}

// Refusal 1, and then the one given where the offset is n or more.
fn judge_at(shape: Shape, offset: PlaneOffset, refusal: Refusal) -> Result<(), Refusal>
    ensures { (done_said result).number ≡ refuse (sound shape) 1 (refuse (nat_lt offset.0 (size shape)) (refusal_number refusal) 0) }
{
    judge_memory(shape)?;
    if offset.0 < shape.p0 {
        return Ok(());
    }
    Err(refusal)
}

// Refusals 1, 3: of a call that names an offset.
#[tactic(auto, unfolding(machine::specs::Calls::offset_number))]
pub fn judge_offset(shape: Shape, offset: PlaneOffset) -> Result<(), Refusal>
    ensures { (done_said result).number ≡ offset_number shape offset.0 }
{
    judge_at(shape, offset, Refusal::Offset)
}

// Refusals 1, 5: of a show.
#[tactic(auto, unfolding(machine::specs::Calls::shown_number))]
pub fn judge_shown(shape: Shape, offset: PlaneOffset) -> Result<(), Refusal>
    ensures { (done_said result).number ≡ shown_number shape offset.0 }
{
    judge_at(shape, offset, Refusal::Place)
}

// Refusals 1, 5: of a call that names a pixel place.
#[tactic(auto, using(crate::proofs::Shapes::place_in, crate::proofs::Shapes::place_out), unfolding(machine::specs::Calls::place_number))]
pub fn judge_place(shape: Shape, place: PixelPlace) -> Result<(), Refusal>
    ensures { (done_said result).number ≡ place_number shape place.0 }
{
    judge_memory(shape)?;
    if place.0 >= shape.picture {
        return Err(Refusal::Place);
    }
    Ok(())
}
