// What a Rattle caller pays for a call of `graphics_controller`, by value and without the host's layer: bench/run counts the instructions of a row's turns.
// Each of the three calls stands at two places, before the turns and in them, so that the compiler leaves it out of line; in the host's archive each has one caller and is inlined.
// The page is set before the turns and clear in them, where no access looks at it: with one value at both places the compiler would leave its test out.
#![tactic(auto)]

mod rows;

use graphics_controller::{cpu_read_u8, cpu_write_u8, show_pixels};
use machine_types::{
    After, GraphicsController, Lent, LentToRead, LentToStore, MemoryMap, PlaneOffset, Sequencer,
};
use rows::{Row, Turn};

// Standard input has two bytes, a row's number and how many thousand turns are made; a line with a sum is written. Of any other input, or a row that there is not, nothing is.
fn main(rt: HostRuntime) {
    let mut input = [0u8; 3];
    if streams::read_full(&mut rt.stdin(), &mut input) != 2 {
        return;
    }
    let [number, thousands, _] = input;
    let Ok(row) = Row::try_from(number) else {
        return;
    };
    let mut p0 = [0u8; 256];
    let mut p1 = [0u8; 256];
    let mut p2 = [0u8; 256];
    let mut p3 = [0u8; 256];
    let mut picture = [0u8; 2048];
    let mut memory = Lent {
        p0: &mut p0[..],
        p1: &mut p1[..],
        p2: &mut p2[..],
        p3: &mut p3[..],
        picture: &mut picture[..],
    };
    let sum = run(row, thousands, &mut memory);
    // two writes
    let _ = print!(rt; "{sum}");
    let _ = println!(rt);
}

// A row's turns: a sum over the answers, the planes and the picture.
fn run(row: Row, thousands: u8, memory: &mut LentToStore) -> u64 {
    let seq = row.sequencer();
    fill(memory);
    let start = loaded(row.controller(), seq, &memory.as_read());
    let sum = turns(row, thousands, start, seq, memory);
    rows::total(sum, &memory.as_read())
}

// Bytes of its own in each plane at every offset, so that there is something to read and to show.
fn fill(memory: &mut LentToStore) {
    let mut gc = rows::plain();
    for at in 0..1024usize {
        let seq = rows::masked(1 << (at % 4), 4);
        let address = MemoryMap::WINDOW_64K_FIRST + at / 4;
        let byte = rows::low_byte(at * 77);
        gc = cpu_write_u8(gc, seq, memory, address, true, byte).next;
    }
}

// A read, which loads the latches, and a show: where the turns start, the controller and the sum so far.
fn loaded(
    gc: GraphicsController,
    seq: Sequencer,
    memory: &LentToRead,
) -> After<GraphicsController, u64> {
    let read = cpu_read_u8(gc, seq, memory, MemoryMap::WINDOW_64K_FIRST, true);
    let shown = show_pixels(gc, seq, memory, PlaneOffset(0));
    After {
        answer: rows::pixels(0, shown),
        next: read.next,
    }
}

// That many thousand turns of the row's one call, the last first: a sum over what they answer. To reads and shows the memory is lent once, before their turns.
fn turns(
    row: Row,
    thousands: u8,
    start: After<GraphicsController, u64>,
    seq: Sequencer,
    memory: &mut LentToStore,
) -> u64 {
    let places = row.places();
    let count = usize::from(thousands) * 1000;
    match row.turn {
        Turn::Nothing => nothing(start.answer, &places, count),
        Turn::Write => writes(start, seq, memory, &places, count),
        Turn::Read => reads(start, seq, &memory.as_read(), &places, count),
        Turn::Show => shows(start, seq, &memory.as_read(), &places, count),
    }
}

fn nothing(mut sum: u64, places: &[usize; 256], count: usize) -> u64 {
    for turn in (0..count).rev() {
        sum = sum.wrapping_add(places[turn % 256] as u64);
    }
    sum
}

fn writes(
    start: After<GraphicsController, u64>,
    seq: Sequencer,
    memory: &mut LentToStore,
    places: &[usize; 256],
    count: usize,
) -> u64 {
    let mut gc = start.next;
    let mut sum = start.answer;
    for turn in (0..count).rev() {
        let byte = rows::low_byte(turn);
        let made = cpu_write_u8(gc, seq, memory, places[turn % 256], false, byte);
        gc = made.next;
        sum = rows::changed(sum, made.answer);
    }
    sum
}

fn reads(
    start: After<GraphicsController, u64>,
    seq: Sequencer,
    memory: &LentToRead,
    places: &[usize; 256],
    count: usize,
) -> u64 {
    let mut gc = start.next;
    let mut sum = start.answer;
    for turn in (0..count).rev() {
        let made = cpu_read_u8(gc, seq, memory, places[turn % 256], false);
        gc = made.next;
        sum = rows::byte(sum, made.answer);
    }
    sum
}

fn shows(
    start: After<GraphicsController, u64>,
    seq: Sequencer,
    memory: &LentToRead,
    places: &[usize; 256],
    count: usize,
) -> u64 {
    let gc = start.next;
    let mut sum = start.answer;
    for turn in (0..count).rev() {
        let shown = show_pixels(gc, seq, memory, PlaneOffset(places[turn % 256]));
        sum = rows::pixels(sum, shown);
    }
    sum
}
