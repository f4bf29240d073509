// The controller's ports and the fields that are asked for: each judges the record, and then reads or writes its registers.
#![tactic(auto, unfolding(machine::specs::Step::graphics_step, machine::specs::Calls::gc_number_of, machine::specs::Calls::gc_value, machine::specs::Calls::gc_next))]

ghost use Rattle.std.specs.Prelude.{◌≡◌};
ghost use Rattle.machine.specs.Answers.{said, one, outcome, byte_said, done_said, flag_said, map_said, odd_even_said, shift_said};
ghost use Rattle.machine.specs.Graphics.{with_address, with_data, data_of};
ghost use Rattle.machine.specs.Calls.{gc_reset, gc_chain, gc_chain4, gc_memory_map, gc_odd_even, gc_shift_mode, gc_read_address, gc_read_data, gc_write_address, gc_write_data};
ghost use Rattle.machine.specs.Step.{graphics_step};

use machine_types::{
    After, GraphicsController, GraphicsRegister, GraphicsRegisters, MemoryMap,
    OddEvenModeComplement, Refusal, ShiftMode,
};
use refusals_records::judge_gc;

// Any record is taken; latches and counters go back to the start too.
pub fn reset(gc: GraphicsController) -> GraphicsController
    ensures { outcome (said 0 (one 0)) result ≡ graphics_step gc gc_reset }
{
    GraphicsController::new()
}

pub fn chain(gc: GraphicsController) -> Result<bool, Refusal>
    ensures { outcome (flag_said result) gc ≡ graphics_step gc gc_chain }
{
    judge_gc(gc.registers)?;
    Ok(fields::gc::chain_odd_even(gc.registers))
}

pub fn chain4(gc: GraphicsController) -> Result<bool, Refusal>
    ensures { outcome (flag_said result) gc ≡ graphics_step gc gc_chain4 }
{
    judge_gc(gc.registers)?;
    Ok(fields::gc::shift_mode(gc.registers) == ShiftMode::Chain4)
}

pub fn memory_map(gc: GraphicsController) -> Result<MemoryMap, Refusal>
    ensures { outcome (map_said result) gc ≡ graphics_step gc gc_memory_map }
{
    judge_gc(gc.registers)?;
    Ok(fields::gc::memory_map(gc.registers))
}

pub fn odd_even(gc: GraphicsController) -> Result<OddEvenModeComplement, Refusal>
    ensures { outcome (odd_even_said result) gc ≡ graphics_step gc gc_odd_even }
{
    judge_gc(gc.registers)?;
    Ok(fields::gc::odd_even(gc.registers))
}

pub fn shift_mode(gc: GraphicsController) -> Result<ShiftMode, Refusal>
    ensures { outcome (shift_said result) gc ≡ graphics_step gc gc_shift_mode }
{
    judge_gc(gc.registers)?;
    Ok(fields::gc::shift_mode(gc.registers))
}

pub fn read_address(gc: GraphicsController) -> Result<u8, Refusal>
    ensures { outcome (byte_said result) gc ≡ graphics_step gc gc_read_address }
{
    judge_gc(gc.registers)?;
    Ok(gc.registers.register_select_byte)
}

#[tactic(auto, unfolding(machine::specs::Graphics::with_address), using(crate::proofs::Kept::four_kept))]
fn with_address(registers: GraphicsRegisters, byte: u8) -> GraphicsRegisters
    ensures { result ≡ with_address byte registers }
{
    let number = byte & 0x0F;
    GraphicsRegisters {
        register_select_byte: number,
        register_selected: fields::gc::selected(number, registers.register_selected),
        ..registers
    }
}

pub fn write_address(
    mut gc: GraphicsController,
    byte: u8,
) -> After<GraphicsController, Result<(), Refusal>>
    ensures { outcome (done_said result.answer) result.next ≡ graphics_step gc (gc_write_address byte) }
{
    let answer = judge_gc(gc.registers);
    if answer.is_ok() {
        gc.registers = with_address(gc.registers, byte);
    }
    After { answer, next: gc }
}

// The register that stands selected, as it is kept.
#[tactic(auto, unfolding(machine::specs::Graphics::data_of))]
pub fn data_of(registers: GraphicsRegisters) -> u8
    ensures { result ≡ data_of registers.register_selected registers }
{
    match registers.register_selected {
        GraphicsRegister::SetReset => registers.set_reset,
        GraphicsRegister::EnableSetReset => registers.enable_set_reset,
        GraphicsRegister::ColorCompare => registers.color_compare,
        GraphicsRegister::DataRotate => registers.data_rotate,
        GraphicsRegister::ReadMapSelect => registers.read_map_select,
        GraphicsRegister::Mode => registers.mode,
        GraphicsRegister::Miscellaneous => registers.miscellaneous,
        GraphicsRegister::ColorDontCare => registers.color_dont_care,
        GraphicsRegister::BitMask => registers.bitmask,
    }
}

pub fn read_data(gc: GraphicsController) -> Result<u8, Refusal>
    ensures { outcome (byte_said result) gc ≡ graphics_step gc gc_read_data }
{
    judge_gc(gc.registers)?;
    Ok(data_of(gc.registers))
}

#[tactic(auto, unfolding(machine::specs::Graphics::with_data, machine::specs::Graphics::keeps), using(crate::proofs::Kept::four_kept, crate::proofs::Kept::two_kept))]
fn with_data(mut registers: GraphicsRegisters, byte: u8) -> GraphicsRegisters
    ensures { result ≡ with_data byte registers }
{
    match registers.register_selected {
        GraphicsRegister::SetReset => registers.set_reset = byte & 0x0F,
        GraphicsRegister::EnableSetReset => registers.enable_set_reset = byte & 0x0F,
        GraphicsRegister::ColorCompare => registers.color_compare = byte & 0x0F,
        GraphicsRegister::DataRotate => registers.data_rotate = byte,
        GraphicsRegister::ReadMapSelect => registers.read_map_select = byte & 0x03,
        GraphicsRegister::Mode => registers.mode = byte,
        GraphicsRegister::Miscellaneous => registers.miscellaneous = byte,
        GraphicsRegister::ColorDontCare => registers.color_dont_care = byte & 0x0F,
        GraphicsRegister::BitMask => registers.bitmask = byte,
    }
    registers
}

pub fn write_data(
    mut gc: GraphicsController,
    byte: u8,
) -> After<GraphicsController, Result<(), Refusal>>
    ensures { outcome (done_said result.answer) result.next ≡ graphics_step gc (gc_write_data byte) }
{
    let answer = judge_gc(gc.registers);
    if answer.is_ok() {
        gc.registers = with_data(gc.registers, byte);
    }
    After { answer, next: gc }
}
