// The graphics controller: its registers as kept bytes, its counters and latches.
ghost use Rattle.std.specs.Prelude.{◌≡◌};
ghost use Rattle.machine_types.specs.Start.{fresh_gc};

// The registers that the address register selects, in the order of their numbers.
#[derive(Clone, Copy, PartialEq, Eq)]
pub enum GraphicsRegister {
    SetReset,
    EnableSetReset,
    ColorCompare,
    DataRotate,
    ReadMapSelect,
    Mode,
    Miscellaneous,
    ColorDontCare,
    BitMask,
}

#[derive(Clone, Copy, PartialEq, Eq)]
pub enum OddEvenModeComplement {
    Sequential,
    OddEven,
}

#[derive(Clone, Copy, PartialEq, Eq)]
pub enum MemoryMap {
    A0000_128k,
    A0000_64K,
    B0000_32K,
    B8000_32K,
}

impl MemoryMap {
    // The windows' ends, both included.
    pub const WINDOW_128K_FIRST: usize = 0xA0000;

    pub const WINDOW_128K_LAST: usize = 0xBFFFF;

    pub const WINDOW_64K_FIRST: usize = 0xA0000;

    pub const WINDOW_64K_LAST: usize = 0xAFFFF;

    pub const WINDOW_B8000_FIRST: usize = 0xB8000;

    pub const WINDOW_B8000_LAST: usize = 0xBFFFF;
}

#[derive(Clone, Copy, PartialEq, Eq)]
pub enum LogicFunction {
    Unmodified,
    And,
    Or,
    Xor,
}

#[derive(Clone, Copy, PartialEq, Eq)]
pub enum WriteMode {
    Mode0,
    Mode1,
    Mode2,
    Mode3,
}

#[derive(Clone, Copy, PartialEq, Eq)]
pub enum ReadMode {
    ReadSelectedPlane,
    ReadComparedPlanes,
}

#[derive(Clone, Copy, PartialEq, Eq)]
pub enum ShiftMode {
    Standard,
    CGACompatible,
    Chain4,
    Unused,
}

// What the ports reach: the address, the register that it selected, and each register's kept bits.
#[derive(Clone, Copy)]
pub struct GraphicsRegisters {
    pub register_select_byte: u8,
    pub register_selected: GraphicsRegister,
    pub set_reset: u8,
    pub enable_set_reset: u8,
    pub color_compare: u8,
    pub data_rotate: u8,
    pub read_map_select: u8,
    pub mode: u8,
    pub miscellaneous: u8,
    pub color_dont_care: u8,
    pub bitmask: u8,
}

// The processor's reads and writes: the accepted ones by mode, and those refused with 2 or 3. Each count goes back to 0 after 4,294,967,295.
#[derive(Clone, Copy)]
pub struct GraphicsControllerStats {
    pub mode_0_writes: u32,
    pub mode_1_writes: u32,
    pub mode_2_writes: u32,
    pub mode_3_writes: u32,
    pub mode_0_reads: u32,
    pub mode_1_reads: u32,
    pub refused_accesses: u32,
}

#[derive(Clone, Copy)]
pub struct GraphicsController {
    pub registers: GraphicsRegisters,
    pub stats: GraphicsControllerStats,
    pub latches: [u8; 4],
}

impl GraphicsController {
    // The start: all 0, latches and counters too.
    pub fn new() -> Self
        ensures { result ≡ fresh_gc }
    {
        let registers = GraphicsRegisters {
            register_select_byte: 0,
            register_selected: GraphicsRegister::SetReset,
            set_reset: 0,
            enable_set_reset: 0,
            color_compare: 0,
            data_rotate: 0,
            read_map_select: 0,
            mode: 0,
            miscellaneous: 0,
            color_dont_care: 0,
            bitmask: 0,
        };
        let stats = GraphicsControllerStats {
            mode_0_writes: 0,
            mode_1_writes: 0,
            mode_2_writes: 0,
            mode_3_writes: 0,
            mode_0_reads: 0,
            mode_1_reads: 0,
            refused_accesses: 0,
        };
        let latches = [0u8; 4];
        GraphicsController {
            registers,
            stats,
            latches,
        }
    }
}
