// The two records as a host keeps them, numbers alone: no enum can cross the boundary, and C hands in flags that are neither 0 nor 1. The selected register is its number.
ghost use Rattle.std.specs.Prelude.{◌≡◌, ◌+◌, ◌%◌, ◌^◌, Ok, Err};
ghost use Rattle.bits.specs.Bit.{pick};
ghost use Rattle.machine_types.specs.declared.answer.Refusal.TheVariants.{State};
ghost use Rattle.host_records.specs.Records.{is_set, stats_of, stats_record_of, controller_of, controller_record_of, sequencer_of, sequencer_record_of, known_gc, known_seq, known_both};
ghost use Rattle.host_records.specs.Records.{counter_told, with_count, with_register, register_told, value_told};

use crate::counter::Counter;
use machine_types::{
    GraphicsController, GraphicsControllerStats, GraphicsRegister, GraphicsRegisters, Refusal,
    Sequencer,
};

// The counters.
#[repr(C)]
#[derive(Clone, Copy)]
pub struct StatsRecord {
    pub mode_0_writes: u32,
    pub mode_1_writes: u32,
    pub mode_2_writes: u32,
    pub mode_3_writes: u32,
    pub mode_0_reads: u32,
    pub mode_1_reads: u32,
    pub refused_accesses: u32,
}

#[repr(C)]
#[derive(Clone, Copy)]
pub struct ControllerRecord {
    pub stats: StatsRecord,
    pub register_select_byte: u8,
    pub register_selected: u8,
    pub set_reset: u8,
    pub enable_set_reset: u8,
    pub color_compare: u8,
    pub data_rotate: u8,
    pub read_map_select: u8,
    pub mode: u8,
    pub miscellaneous: u8,
    pub color_dont_care: u8,
    pub bitmask: u8,
    pub latches: [u8; 4],
    // A byte of the host's own: every call leaves it as it is.
    pub spare: u8,
}

#[repr(C)]
#[derive(Clone, Copy)]
pub struct SequencerRecord {
    pub address_byte: u8,
    pub register_selected: u8,
    pub reset: u8,
    pub clocking_mode: u8,
    pub map_mask: u8,
    pub character_map_select: u8,
    pub memory_mode: u8,
    // 0 is clear, any other number set; an accepted call leaves 0 or 1.
    pub clock_change_pending: u8,
    pub clock_divisor: u32,
    pub char_clock: u32,
}

// Whether the selected register is a register's number; a host can hand in any byte.
pub fn known_controller(gc: ControllerRecord) -> bool
    ensures { result ≡ known_gc gc }
{
    gc.register_selected <= 8
}

pub fn known_sequencer(seq: SequencerRecord) -> bool
    ensures { result ≡ known_seq seq }
{
    seq.register_selected <= 5
}

pub fn known(gc: ControllerRecord, seq: SequencerRecord) -> bool
    ensures { result ≡ known_both gc seq }
{
    known_controller(gc) && known_sequencer(seq)
}

// A flag that a host hands in: 0 is clear, any other number set.
#[tactic(auto, using(crate::proofs::Laws::set_by_test))]
pub fn is_set(flag: u8) -> bool
    ensures { result ≡ is_set flag }
{
    flag != 0
}

impl From<StatsRecord> for GraphicsControllerStats {
    ghost from_gives = { λ kept stats. stats ≡ stats_of kept };

    fn from(kept: StatsRecord) -> GraphicsControllerStats {
        GraphicsControllerStats {
            mode_0_writes: kept.mode_0_writes,
            mode_1_writes: kept.mode_1_writes,
            mode_2_writes: kept.mode_2_writes,
            mode_3_writes: kept.mode_3_writes,
            mode_0_reads: kept.mode_0_reads,
            mode_1_reads: kept.mode_1_reads,
            refused_accesses: kept.refused_accesses,
        }
    }
}

impl From<GraphicsControllerStats> for StatsRecord {
    ghost from_gives = { λ stats kept. kept ≡ stats_record_of stats };

    fn from(stats: GraphicsControllerStats) -> StatsRecord {
        StatsRecord {
            mode_0_writes: stats.mode_0_writes,
            mode_1_writes: stats.mode_1_writes,
            mode_2_writes: stats.mode_2_writes,
            mode_3_writes: stats.mode_3_writes,
            mode_0_reads: stats.mode_0_reads,
            mode_1_reads: stats.mode_1_reads,
            refused_accesses: stats.refused_accesses,
        }
    }
}

// A record of unknown number is read as one that selects the bit mask: `meant` refuses it.
impl From<ControllerRecord> for GraphicsController {
    ghost from_gives = { λ kept gc. gc ≡ controller_of kept };

    fn from(gc: ControllerRecord) -> GraphicsController {
        let latches = gc.latches;
        GraphicsController {
            registers: GraphicsRegisters {
                register_select_byte: gc.register_select_byte,
                register_selected: fields::gc::selected(
                    gc.register_selected,
                    GraphicsRegister::BitMask,
                ),
                set_reset: gc.set_reset,
                enable_set_reset: gc.enable_set_reset,
                color_compare: gc.color_compare,
                data_rotate: gc.data_rotate,
                read_map_select: gc.read_map_select,
                mode: gc.mode,
                miscellaneous: gc.miscellaneous,
                color_dont_care: gc.color_dont_care,
                bitmask: gc.bitmask,
            },
            stats: gc.stats.into(),
            latches,
        }
    }
}

fn raise(count: &mut u32)
    ensures { count.new ≡ (count.old + 1) % 2 ^ 32 }
{
    *count = count.wrapping_add(1);
}

impl ControllerRecord {
    // The machine's record as a host keeps it, with the host's own byte.
    pub fn of(gc: GraphicsController, spare: u8) -> ControllerRecord
        ensures { result ≡ controller_record_of spare gc }
    {
        let registers = gc.registers;
        let latches = gc.latches;
        ControllerRecord {
            stats: gc.stats.into(),
            register_select_byte: registers.register_select_byte,
            register_selected: registers.register_selected as u8,
            set_reset: registers.set_reset,
            enable_set_reset: registers.enable_set_reset,
            color_compare: registers.color_compare,
            data_rotate: registers.data_rotate,
            read_map_select: registers.read_map_select,
            mode: registers.mode,
            miscellaneous: registers.miscellaneous,
            color_dont_care: registers.color_dont_care,
            bitmask: registers.bitmask,
            latches,
            spare,
        }
    }

    // The controller that a host's record means; refusal 6 where its selected register is none.
    pub fn meant(self) -> Result<GraphicsController, Refusal>
        ensures { result ≡ pick (known_gc self) (Ok (controller_of self)) (Err State) }
    {
        if known_controller(self) {
            Ok(self.into())
        } else {
            Err(Refusal::State)
        }
    }

    // One counter goes up where it stands.
    pub fn count(&mut self, counter: Option<Counter>)
        ensures { self.new ≡ with_count (counter_told counter) self.old }
    {
        let stats = &mut self.stats;
        match counter {
            Some(Counter::Mode0Writes) => raise(&mut stats.mode_0_writes),
            Some(Counter::Mode1Writes) => raise(&mut stats.mode_1_writes),
            Some(Counter::Mode2Writes) => raise(&mut stats.mode_2_writes),
            Some(Counter::Mode3Writes) => raise(&mut stats.mode_3_writes),
            Some(Counter::Mode0Reads) => raise(&mut stats.mode_0_reads),
            Some(Counter::Mode1Reads) => raise(&mut stats.mode_1_reads),
            Some(Counter::RefusedAccesses) => raise(&mut stats.refused_accesses),
            None => {}
        }
    }

    // One register is stored where it stands.
    pub fn store(&mut self, stored: Option<(GraphicsRegister, u8)>)
        ensures { self.new ≡ with_register (register_told stored) (value_told stored) self.old }
    {
        if let Some((register, value)) = stored {
            match register {
                GraphicsRegister::SetReset => self.set_reset = value,
                GraphicsRegister::EnableSetReset => self.enable_set_reset = value,
                GraphicsRegister::ColorCompare => self.color_compare = value,
                GraphicsRegister::DataRotate => self.data_rotate = value,
                GraphicsRegister::ReadMapSelect => self.read_map_select = value,
                GraphicsRegister::Mode => self.mode = value,
                GraphicsRegister::Miscellaneous => self.miscellaneous = value,
                GraphicsRegister::ColorDontCare => self.color_dont_care = value,
                GraphicsRegister::BitMask => self.bitmask = value,
            }
        }
    }
}

impl From<SequencerRecord> for Sequencer {
    ghost from_gives = { λ kept seq. seq ≡ sequencer_of kept };

    fn from(seq: SequencerRecord) -> Sequencer {
        Sequencer {
            address_byte: seq.address_byte,
            register_selected: fields::seq::selected(seq.register_selected),
            reset: seq.reset,
            clocking_mode: seq.clocking_mode,
            map_mask: seq.map_mask,
            character_map_select: seq.character_map_select,
            memory_mode: seq.memory_mode,
            clock_change_pending: is_set(seq.clock_change_pending),
            clock_divisor: seq.clock_divisor,
            char_clock: seq.char_clock,
        }
    }
}

impl From<Sequencer> for SequencerRecord {
    ghost from_gives = { λ seq kept. kept ≡ sequencer_record_of seq };

    fn from(seq: Sequencer) -> SequencerRecord {
        SequencerRecord {
            address_byte: seq.address_byte,
            register_selected: seq.register_selected as u8,
            reset: seq.reset,
            clocking_mode: seq.clocking_mode,
            map_mask: seq.map_mask,
            character_map_select: seq.character_map_select,
            memory_mode: seq.memory_mode,
            clock_change_pending: u8::from(seq.clock_change_pending),
            clock_divisor: seq.clock_divisor,
            char_clock: seq.char_clock,
        }
    }
}

impl SequencerRecord {
    // The sequencer that a host's record means; refusal 6 where its selected register is none.
    pub fn meant(self) -> Result<Sequencer, Refusal>
        ensures { result ≡ pick (known_seq self) (Ok (sequencer_of self)) (Err State) }
    {
        if known_sequencer(self) {
            Ok(self.into())
        } else {
            Err(Refusal::State)
        }
    }
}
