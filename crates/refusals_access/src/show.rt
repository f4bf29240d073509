// The refusals of the controller's two shows: 9 of the older one, and what 5 looks at by the shift mode.
ghost use Rattle.std.specs.Prelude.{◌≡◌, ltb};
ghost use Rattle.machine.specs.Answers.{done_said};
ghost use Rattle.machine.specs.Calls.{shows as shows_in, show_number, last_shown, pixels_number};

use machine_types::{GraphicsRegisters, PlaneOffset, Refusal, Sequencer, Shape, ShiftMode};
use refusals_memory::judge_memory;
use refusals_records::judge_both;

// Whether the older show answers.
fn shows(mode: ShiftMode) -> bool
    ensures { result ≡ shows_in mode }
{
    mode == ShiftMode::Standard || mode == ShiftMode::Unused
}

// Refusals 6, 1, 9, 5, of the older show.
#[tactic(auto, unfolding(machine::specs::Calls::show_number))]
pub fn judge_show(
    registers: GraphicsRegisters,
    seq: Sequencer,
    shape: Shape,
    offset: PlaneOffset,
) -> Result<(), Refusal>
    ensures { (done_said result).number ≡ show_number registers seq shape offset.0 }
{
    judge_both(registers, seq)?;
    judge_memory(shape)?;
    if !shows(fields::gc::shift_mode(registers)) {
        return Err(Refusal::Shift);
    }
    if offset.0 >= shape.p0 {
        return Err(Refusal::Place);
    }
    Ok(())
}

// Whether planes of n bytes have all that a show looks at: the offset, and in `CGACompatible` the next one. No sum is made of an offset that is not below n.
fn within_planes(mode: ShiftMode, n: usize, offset: usize) -> bool
    ensures { result ≡ ltb (last_shown mode offset) n }
{
    match mode {
        ShiftMode::Standard => offset < n,
        ShiftMode::CGACompatible => {
            if offset >= n {
                return false;
            }
            offset + 1 < n
        }
        ShiftMode::Chain4 => offset < n,
        ShiftMode::Unused => offset < n,
    }
}

// Refusals 6, 1, 5, of the show that serves every shift mode.
#[tactic(auto, unfolding(machine::specs::Calls::pixels_number))]
pub fn judge_pixels(
    registers: GraphicsRegisters,
    seq: Sequencer,
    shape: Shape,
    offset: PlaneOffset,
) -> Result<(), Refusal>
    ensures { (done_said result).number ≡ pixels_number registers seq shape offset.0 }
{
    judge_both(registers, seq)?;
    judge_memory(shape)?;
    if within_planes(fields::gc::shift_mode(registers), shape.p0, offset.0) {
        return Ok(());
    }
    Err(Refusal::Place)
}
