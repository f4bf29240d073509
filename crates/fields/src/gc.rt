// The fields of the controller's kept bytes, a shift and a mask each, and its registers by number.
ghost use Rattle.std.specs.Prelude.{◌≡◌};
ghost use Rattle.machine.specs.Graphics.{rotate_count, logic_function, write_mode, read_mode, odd_even, shift_mode, chained, memory_map, selects, register_number};

use machine_types::{
    GraphicsRegister, GraphicsRegisters, LogicFunction, MemoryMap, OddEvenModeComplement, ReadMode,
    ShiftMode, WriteMode,
};

// Data Rotate, bits 0-2.
pub fn rotate_count(registers: GraphicsRegisters) -> u8
    ensures { result ≡ rotate_count registers }
{
    registers.data_rotate & 7
}

// Data Rotate, bits 3-4.
pub fn function(registers: GraphicsRegisters) -> LogicFunction
    ensures { result ≡ logic_function registers }
{
    let field = (registers.data_rotate >> 3) & 3;
    match field {
        0 => LogicFunction::Unmodified,
        1 => LogicFunction::And,
        2 => LogicFunction::Or,
        _ => LogicFunction::Xor,
    }
}

// Mode, bits 0-1.
pub fn write_mode(registers: GraphicsRegisters) -> WriteMode
    ensures { result ≡ write_mode registers }
{
    let field = registers.mode & 3;
    match field {
        0 => WriteMode::Mode0,
        1 => WriteMode::Mode1,
        2 => WriteMode::Mode2,
        _ => WriteMode::Mode3,
    }
}

// Mode, bit 3.
pub fn read_mode(registers: GraphicsRegisters) -> ReadMode
    ensures { result ≡ read_mode registers }
{
    let field = (registers.mode >> 3) & 1;
    match field {
        0 => ReadMode::ReadSelectedPlane,
        _ => ReadMode::ReadComparedPlanes,
    }
}

// Mode, bit 4.
pub fn odd_even(registers: GraphicsRegisters) -> OddEvenModeComplement
    ensures { result ≡ odd_even registers }
{
    let field = (registers.mode >> 4) & 1;
    match field {
        0 => OddEvenModeComplement::Sequential,
        _ => OddEvenModeComplement::OddEven,
    }
}

// Mode, bits 5-6.
pub fn shift_mode(registers: GraphicsRegisters) -> ShiftMode
    ensures { result ≡ shift_mode registers }
{
    let field = (registers.mode >> 5) & 3;
    match field {
        0 => ShiftMode::Standard,
        1 => ShiftMode::CGACompatible,
        2 => ShiftMode::Chain4,
        _ => ShiftMode::Unused,
    }
}

// Miscellaneous, bit 1.
pub fn chain_odd_even(registers: GraphicsRegisters) -> bool
    ensures { result ≡ chained registers }
{
    (registers.miscellaneous >> 1) & 1 == 1
}

// Miscellaneous, bits 2-3.
pub fn memory_map(registers: GraphicsRegisters) -> MemoryMap
    ensures { result ≡ memory_map registers }
{
    let field = (registers.miscellaneous >> 2) & 3;
    match field {
        0 => MemoryMap::A0000_128k,
        1 => MemoryMap::A0000_64K,
        2 => MemoryMap::B0000_32K,
        _ => MemoryMap::B8000_32K,
    }
}

// 0 to 8 select in the order of GraphicsRegister; any other number keeps the earlier selection.
pub fn selected(number: u8, earlier: GraphicsRegister) -> GraphicsRegister
    ensures { result ≡ selects number earlier }
{
    match number {
        0 => GraphicsRegister::SetReset,
        1 => GraphicsRegister::EnableSetReset,
        2 => GraphicsRegister::ColorCompare,
        3 => GraphicsRegister::DataRotate,
        4 => GraphicsRegister::ReadMapSelect,
        5 => GraphicsRegister::Mode,
        6 => GraphicsRegister::Miscellaneous,
        7 => GraphicsRegister::ColorDontCare,
        8 => GraphicsRegister::BitMask,
        _ => earlier,
    }
}

// A register's number, by which it is selected.
pub fn register_number(register: GraphicsRegister) -> u8
    ensures { result ≡ register_number register }
{
    register as u8
}
