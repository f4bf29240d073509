// The sequencer: its registers as kept bytes, and the clock that the emulator polls.
ghost use Rattle.std.specs.Prelude.{◌≡◌};
ghost use Rattle.machine_types.specs.Start.{fresh_seq};

#[derive(Clone, Copy, PartialEq, Eq)]
pub enum SequencerRegister {
    Reset,
    ClockingMode,
    MapMask,
    CharacterMapSelect,
    MemoryMode,
    Invalid,
}

#[derive(Clone, Copy, PartialEq, Eq)]
pub enum OddEvenMode {
    OddEven,
    Sequential,
}

#[derive(Clone, Copy)]
pub struct Sequencer {
    pub address_byte: u8,
    pub register_selected: SequencerRegister,
    pub reset: u8,
    pub clocking_mode: u8,
    pub map_mask: u8,
    pub character_map_select: u8,
    pub memory_mode: u8,
    pub clock_change_pending: bool,
    pub clock_divisor: u32,
    pub char_clock: u32,
}

impl Sequencer {
    // The start: all registers 0, Reset selected, divisor 1, character clock 9, no change pending.
    pub fn new() -> Self
        ensures { result ≡ fresh_seq }
    {
        Sequencer {
            address_byte: 0,
            register_selected: SequencerRegister::Reset,
            reset: 0,
            clocking_mode: 0,
            map_mask: 0,
            character_map_select: 0,
            memory_mode: 0,
            clock_change_pending: false,
            clock_divisor: 1,
            char_clock: 9,
        }
    }
}
