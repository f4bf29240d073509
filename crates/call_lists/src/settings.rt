// What no port and no call of the Rust does, for cases that ports cannot reach: any value in a field of a record. Fields are numbered in the order
// of the digest; a field of none changes nothing.
use list_lines::call::low_byte;
use machine_types::{GraphicsController, Sequencer};

pub fn controller(gc: &mut GraphicsController, field: usize, value: usize) {
    let byte = low_byte(value);
    let count = low_half(value);
    match field {
        0 => gc.registers.register_select_byte = byte,
        1 => {
            let earlier = gc.registers.register_selected;
            gc.registers.register_selected = fields::gc::selected(byte, earlier);
        }
        2 => gc.registers.set_reset = byte,
        3 => gc.registers.enable_set_reset = byte,
        4 => gc.registers.color_compare = byte,
        5 => gc.registers.data_rotate = byte,
        6 => gc.registers.read_map_select = byte,
        7 => gc.registers.mode = byte,
        8 => gc.registers.miscellaneous = byte,
        9 => gc.registers.color_dont_care = byte,
        10 => gc.registers.bitmask = byte,
        11..=14 => gc.latches[field - 11] = byte,
        15 => gc.stats.mode_0_writes = count,
        16 => gc.stats.mode_1_writes = count,
        17 => gc.stats.mode_2_writes = count,
        18 => gc.stats.mode_3_writes = count,
        19 => gc.stats.mode_0_reads = count,
        20 => gc.stats.mode_1_reads = count,
        21 => gc.stats.refused_accesses = count,
        _ => {}
    }
}

pub fn sequencer(seq: &mut Sequencer, field: usize, value: usize) {
    let byte = low_byte(value);
    match field {
        0 => seq.address_byte = byte,
        // 5 selects `Invalid`
        1 if byte <= 5 => seq.register_selected = fields::seq::selected(byte),
        2 => seq.reset = byte,
        3 => seq.clocking_mode = byte,
        4 => seq.map_mask = byte,
        5 => seq.character_map_select = byte,
        6 => seq.memory_mode = byte,
        7 => seq.clock_change_pending = byte == 1,
        8 => seq.clock_divisor = low_half(value),
        9 => seq.char_clock = low_half(value),
        _ => {}
    }
}

// A number modulo 2^32.
fn low_half(number: usize) -> u32 {
    (number % 4294967296) as u32
}
