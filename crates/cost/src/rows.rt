// The rows: what each one's turns call, with its registers, as bench/driver.rs sets them, and its places; answers and memory are numbers to be added.
use machine_types::{Changed, GraphicsController, LentToRead, MemoryMap, Refusal, Sequencer};
use std::array;

// What a refused call adds: no answer has it.
const REFUSED: u64 = 1000;

#[derive(Clone, Copy)]
pub enum Turn {
    Nothing,
    Write,
    Read,
    Show,
}

#[derive(Clone, Copy)]
pub struct Row {
    pub turn: Turn,
    // the controller's Mode
    mode: u8,
    // the sequencer's Memory Mode: chain-four and sequential, or sequential alone
    memory_mode: u8,
}

// No row has the number.
#[derive(Clone, Copy)]
pub struct NoRow;

// By the numbers of bench/run.
impl TryFrom<u8> for Row {
    type Error = NoRow;

    fn try_from(number: u8) -> Result<Row, NoRow> {
        let (turn, mode, memory_mode) = match number {
            0 => (Turn::Nothing, 0, 4),
            // write modes 0 to 3
            1 => (Turn::Write, 0, 4),
            2 => (Turn::Write, 1, 4),
            3 => (Turn::Write, 2, 4),
            4 => (Turn::Write, 3, 4),
            // chain-four
            5 => (Turn::Write, 0, 12),
            // selected-plane, chain-four, compare
            6 => (Turn::Read, 0, 4),
            7 => (Turn::Read, 0, 12),
            8 => (Turn::Read, 8, 4),
            // standard, CGA, Chain4
            9 => (Turn::Show, 0, 4),
            10 => (Turn::Show, 0x20, 4),
            11 => (Turn::Show, 0x40, 4),
            _ => return Err(NoRow),
        };
        Ok(Row {
            turn,
            mode,
            memory_mode,
        })
    }
}

impl Row {
    // Function `Xor`, rotate 3, Bit Mask 3C, Set/Reset 5, which Enable 0 leaves to mode 3; the row's Mode.
    pub fn controller(self) -> GraphicsController {
        let mut gc = plain();
        let mut registers = gc.registers;
        registers.set_reset = 5;
        registers.color_compare = 5;
        registers.data_rotate = 0x1B;
        registers.read_map_select = 2;
        registers.mode = self.mode;
        registers.color_dont_care = 15;
        registers.bitmask = 0x3C;
        gc.registers = registers;
        gc
    }

    // All planes; the row's Memory Mode.
    pub fn sequencer(self) -> Sequencer {
        masked(15, self.memory_mode)
    }

    // Where 256 turns make the row's call: addresses, and of a show even offsets. They are looked up in a table: of an address that it knows to be in the window the compiler would leave the test out.
    pub fn places(self) -> [usize; 256] {
        array::from_fn(|turn| self.place(turn * 7 % 256))
    }

    fn place(self, offset: usize) -> usize {
        match self.turn {
            Turn::Show => offset & 0xFE,
            Turn::Nothing | Turn::Write | Turn::Read => MemoryMap::WINDOW_64K_FIRST | offset,
        }
    }
}

// A controller whose writes put the byte down as it is: the 64K window, mode 0, every bit of the mask.
pub fn plain() -> GraphicsController {
    let mut gc = GraphicsController::new();
    gc.registers.miscellaneous = 5;
    gc.registers.bitmask = 0xFF;
    gc
}

// A sequencer with this Map Mask and Memory Mode.
pub fn masked(map_mask: u8, memory_mode: u8) -> Sequencer {
    let mut seq = Sequencer::new();
    seq.map_mask = map_mask;
    seq.memory_mode = memory_mode;
    seq
}

pub fn low_byte(n: usize) -> u8 {
    (n % 256) as u8
}

// A sum, and how much of plane 0 a write changed.
pub fn changed(sum: u64, made: Result<Changed, Refusal>) -> u64 {
    sum.wrapping_add(made.map_or(REFUSED, |x| u64::from(x.p0)))
}

// A sum, and the byte of a read.
pub fn byte(sum: u64, made: Result<u8, Refusal>) -> u64 {
    sum.wrapping_add(made.map_or(REFUSED, u64::from))
}

// A sum, and the first and the last of a show's pixels.
pub fn pixels(sum: u64, made: Result<[u8; 8], Refusal>) -> u64 {
    let ends = made.map_or(0, |x| u64::from(x[0]) + u64::from(x[7]));
    sum.wrapping_add(ends)
}

// A sum, and the bytes of planes and picture.
pub fn total(sum: u64, memory: &LentToRead) -> u64 {
    let planes = [memory.p0, memory.p1, memory.p2, memory.p3];
    let with_planes = planes.iter().fold(sum, |sum, plane| bytes(sum, plane));
    bytes(with_planes, memory.picture)
}

fn bytes(sum: u64, list: &[u8]) -> u64 {
    list.iter()
        .fold(sum, |sum, byte| sum.wrapping_add(u64::from(*byte)))
}
