// The whole state: both records in full, and a checksum of each plane and of the picture.
use machine_types::{GraphicsController, GraphicsRegisters, LentToRead, Sequencer};
use std::fmt;

#[derive(Clone, Copy)]
pub struct Digest {
    gc: GraphicsController,
    seq: Sequencer,
    // of planes 0 to 3 and of the picture
    sums: [Sums; 5],
}

// Two sums of a slice's bytes modulo 2^32: of the bytes, from 1 on, and of those sums, from 0 on.
#[derive(Clone, Copy)]
struct Sums {
    first: u32,
    second: u32,
}

impl Digest {
    pub fn of(gc: GraphicsController, seq: Sequencer, memory: &LentToRead) -> Self {
        let sums = [
            Sums::of(memory.p0),
            Sums::of(memory.p1),
            Sums::of(memory.p2),
            Sums::of(memory.p3),
            Sums::of(memory.picture),
        ];
        Digest { gc, seq, sums }
    }
}

impl Sums {
    fn of(bytes: &[u8]) -> Self {
        let mut first: u32 = 1;
        let mut second: u32 = 0;
        for byte in bytes {
            first = first.wrapping_add(u32::from(*byte));
            second = second.wrapping_add(first);
        }
        Sums { first, second }
    }
}

// 42 numbers, each after a blank.
impl fmt::Display for Digest {
    fn fmt<W: fmt::Write>(&self, f: &mut fmt::Formatter<W>) -> fmt::Result {
        let gc = self.gc;
        registers(f, gc.registers)?;
        sequencer(f, self.seq)?;
        numbers(f, &gc.latches)?;
        let stats = gc.stats;
        let counters = [
            stats.mode_0_writes,
            stats.mode_1_writes,
            stats.mode_2_writes,
            stats.mode_3_writes,
            stats.mode_0_reads,
            stats.mode_1_reads,
            stats.refused_accesses,
        ];
        numbers(f, &counters)?;
        for sums in self.sums {
            numbers(f, &[sums.first, sums.second])?;
        }
        Ok(())
    }
}

fn registers<W: fmt::Write>(f: &mut fmt::Formatter<W>, gc: GraphicsRegisters) -> fmt::Result {
    let list = [
        gc.register_select_byte,
        fields::gc::register_number(gc.register_selected),
        gc.set_reset,
        gc.enable_set_reset,
        gc.color_compare,
        gc.data_rotate,
        gc.read_map_select,
        gc.mode,
        gc.miscellaneous,
        gc.color_dont_care,
        gc.bitmask,
    ];
    numbers(f, &list)
}

fn sequencer<W: fmt::Write>(f: &mut fmt::Formatter<W>, seq: Sequencer) -> fmt::Result {
    let list = [
        seq.address_byte,
        fields::seq::register_number(seq.register_selected),
        seq.reset,
        seq.clocking_mode,
        seq.map_mask,
        seq.character_map_select,
        seq.memory_mode,
        u8::from(seq.clock_change_pending),
    ];
    numbers(f, &list)?;
    numbers(f, &[seq.clock_divisor, seq.char_clock])
}

fn numbers<N: fmt::Display, W: fmt::Write>(f: &mut fmt::Formatter<W>, list: &[N]) -> fmt::Result {
    for number in list {
        write!(f, " {number}")?;
    }
    Ok(())
}
