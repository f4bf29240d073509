// The refusals of the sequencer's direct calls by plane.
ghost use Rattle.std.specs.Prelude.{◌≡◌};
ghost use Rattle.machine.specs.Answers.{done_said};
ghost use Rattle.machine.specs.Sequencer.{fits_seq};
ghost use Rattle.machine.specs.Calls.{refuse, plane_number};

use machine_types::{PlaneOffset, Refusal, Sequencer, Shape};

// Refusals 6, 1, 4, 3: of a call that names a plane and an offset.
pub fn judge_direct(
    seq: Sequencer,
    shape: Shape,
    plane: usize,
    offset: PlaneOffset,
) -> Result<(), Refusal>
    ensures { (done_said result).number ≡ refuse (fits_seq seq) 6 (plane_number shape plane offset.0) }
{
    refusals_records::judge_seq(seq)?;
    refusals_memory::judge_plane(shape, plane, offset)
}
