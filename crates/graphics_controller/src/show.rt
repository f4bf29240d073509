// The two shows of an offset's eight pixels: the older one hands back the caller's own part of the picture; the other serves every shift mode, by value.
ghost use Rattle.std.specs.Prelude.{◌≡◌};
ghost use Rattle.machine.specs.Memory.{seen};
ghost use Rattle.machine.specs.Answers.{outcome, older_said, shown_said};
ghost use Rattle.machine.specs.Graphics.{shift_mode};
ghost use Rattle.machine.specs.Calls.{serialize as serializes, show_pixels};
ghost use Rattle.machine.specs.Step.{device, cpu_step};

use machine_types::{GraphicsController, LentToRead, Part, PlaneOffset, Refusal, Sequencer};
use refusals_access::{judge_pixels, judge_show};

// The part, or an empty one where refused.
pub fn serialize<'p>(
    gc: GraphicsController,
    seq: Sequencer,
    memory: &LentToRead<'_, 'p>,
    offset: PlaneOffset,
) -> Part<'p>
    ensures { outcome (older_said result) (device gc (seen memory.now)) ≡ cpu_step gc seq (seen memory.now) (serializes offset.0) }
{
    let answer = judge_show(gc.registers, seq, memory.shape(), offset);
    vram_pixels::inner::part(memory.picture, offset, answer)
}

// The eight pixels by the shift mode. Nothing moves.
pub fn show_pixels(
    gc: GraphicsController,
    seq: Sequencer,
    memory: &LentToRead,
    offset: PlaneOffset,
) -> Result<[u8; 8], Refusal>
    ensures { outcome (shown_said (shift_mode gc.registers) result) (device gc (seen memory.now)) ≡ cpu_step gc seq (seen memory.now) (show_pixels offset.0) }
{
    judge_pixels(gc.registers, seq, memory.shape(), offset)?;
    let mode = fields::gc::shift_mode(gc.registers);
    Ok(graphics_pixels::inner::shown(mode, memory, offset))
}
