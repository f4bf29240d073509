// The processor's accesses: each judged once, then read or written through the latches, and counted, refused or not.
ghost use Rattle.std.specs.Prelude.{◌≡◌, ◌<◌, ◌≤◌, length};
ghost use Rattle.machine_types.specs.Slices.{SameSlices};
ghost use Rattle.machine.specs.Memory.{seen, lent, Shaped};
ghost use Rattle.machine.specs.Answers.{refusal_number, said, one, outcome, byte_said, changed_value, store_said};
ghost use Rattle.machine.specs.Graphics.{gc_of, read_mode, write_mode};
ghost use Rattle.machine.specs.Deeds.{loaded};
ghost use Rattle.machine.specs.Calls.{counted, read_counter, write_counter, refused_counter, refusal_counter, cpu_read, cpu_peek, cpu_write};
ghost use Rattle.machine.specs.Step.{device, cpu_step};
ghost use Rattle.graphics_controller.specs.Reads.{read_byte};

use graphics_paths::{
    counted_read, counted_refusal, counted_write, peeked_plane, pixel_op_compare, selected_plane,
};
use graphics_visits::inner::write_planes;
use machine_types::{
    After, Changed, GraphicsController, GraphicsRegisters, LentToRead, LentToStore, ReadMode,
    Refusal, Sequencer,
};
use refusals_access::judge_access;
use sequencer_masks::inner::stored_at;
use vram_planes::inner::byte as plane_byte;

// The four planes' bytes at an offset.
#[tactic(auto, unfolding(machine::specs::Deeds::loaded))]
fn load(memory: &LentToRead, at: usize) -> [u8; 4]
    requires { Shaped (seen memory.now) × (at < length (seen memory.now).p0) }
    ensures { result ≡ loaded (seen memory.now) at }
{
    [memory.p0[at], memory.p1[at], memory.p2[at], memory.p3[at]]
}

// What a read of an address, which leads to an offset, answers from the latches that it loaded.
fn read_byte(
    mode: ReadMode,
    registers: GraphicsRegisters,
    seq: Sequencer,
    latches: [u8; 4],
    address: usize,
    offset: usize,
) -> u8
    requires { registers.read_map_select ≤ 3 }
    ensures { result ≡ read_byte mode registers seq address offset latches }
{
    match mode {
        ReadMode::ReadSelectedPlane => {
            let plane = selected_plane(registers, seq, address, offset);
            latches[plane]
        }
        ReadMode::ReadComparedPlanes => {
            pixel_op_compare(registers.color_dont_care, registers.color_compare, latches)
        }
    }
}

// The answer of an accepted read, from the latches that it loaded: its mode's counter goes up, registers stay.
fn read_done(
    gc: GraphicsController,
    seq: Sequencer,
    latches: [u8; 4],
    address: usize,
    offset: usize,
) -> After<GraphicsController, Result<u8, Refusal>>
    requires { gc.registers.read_map_select ≤ 3 }
    ensures { outcome (byte_said result.answer) result.next
        ≡ outcome (said 0 (one (read_byte (read_mode gc.registers) gc.registers seq address offset latches)))
        (gc_of gc.registers (counted (read_counter (read_mode gc.registers)) gc.stats) latches) }
{
    let mode = fields::gc::read_mode(gc.registers);
    let byte = read_byte(mode, gc.registers, seq, latches, address, offset);
    let stats = counted_read(mode, gc.stats);
    After {
        answer: Ok(byte),
        next: GraphicsController {
            stats,
            latches,
            ..gc
        },
    }
}

// What a refused read or write leaves of the controller: the seventh counter goes up where the refusal is 2 or 3, registers and latches stay.
fn turned_away(mut gc: GraphicsController, refusal: Refusal) -> GraphicsController
    ensures { result ≡ gc_of gc.registers (counted (refusal_counter (refusal_number refusal) refused_counter) gc.stats) gc.latches }
{
    gc.stats = counted_refusal(refusal, gc.stats);
    gc
}

// A read by the processor: it loads all four latches, whichever plane is asked for, under chain-four at the offset with its low two bits clear.
pub fn cpu_read_u8(
    gc: GraphicsController,
    seq: Sequencer,
    memory: &LentToRead,
    address: usize,
    page: bool,
) -> After<GraphicsController, Result<u8, Refusal>>
    ensures { outcome (byte_said result.answer) (device result.next (seen memory.now)) ≡ cpu_step gc seq (seen memory.now) (cpu_read address page) }
{
    match judge_access(gc.registers, seq, memory.shape(), address, page) {
        Err(refusal) => After {
            answer: Err(refusal),
            next: turned_away(gc, refusal),
        },
        Ok((found, _)) => {
            let offset = found.0;
            let at = stored_at(seq, offset);
            let latches = load(memory, at);
            read_done(gc, seq, latches, address, offset)
        }
    }
}

// Plane 0's byte, or under chain-four that of plane offset mod 4, at the offset with its low two bits clear; no latch and no counter moves.
pub fn cpu_peek_u8(
    gc: GraphicsController,
    seq: Sequencer,
    memory: &LentToRead,
    address: usize,
    page: bool,
) -> Result<u8, Refusal>
    ensures { outcome (byte_said result) (device gc (seen memory.now)) ≡ cpu_step gc seq (seen memory.now) (cpu_peek address page) }
{
    let (found, _) = judge_access(gc.registers, seq, memory.shape(), address, page)?;
    let offset = found.0;
    let plane = peeked_plane(seq, offset);
    let at = stored_at(seq, offset);
    Ok(plane_byte(memory, plane, at))
}

// The answer of an accepted write that changed so much: its mode's counter goes up, registers and latches stay.
fn write_done(
    mut gc: GraphicsController,
    changed: Changed,
) -> After<GraphicsController, Result<Changed, Refusal>>
    ensures { outcome (store_said result.answer) result.next
        ≡ outcome (said 0 (changed_value changed)) (gc_of gc.registers (counted (write_counter (write_mode gc.registers)) gc.stats) gc.latches) }
{
    gc.stats = counted_write(fields::gc::write_mode(gc.registers), gc.stats);
    After {
        answer: Ok(changed),
        next: gc,
    }
}

// A write by the processor, through the mode, the latches and the mask: how much of each plane it changed.
pub fn cpu_write_u8(
    gc: GraphicsController,
    seq: Sequencer,
    memory: &mut LentToStore,
    address: usize,
    page: bool,
    byte: u8,
) -> After<GraphicsController, Result<Changed, Refusal>>
    ensures same_slices { SameSlices memory.old memory.new }
    ensures does { outcome (store_said result.answer) (device result.next (lent memory.new)) ≡ cpu_step gc seq (lent memory.old) (cpu_write address page byte) }
{
    match judge_access(gc.registers, seq, memory.shape(), address, page) {
        Err(refusal) => After {
            answer: Err(refusal),
            next: turned_away(gc, refusal),
        },
        Ok((offset, a0)) => {
            let changed = write_planes(gc, seq, memory, offset.0, a0, address, byte);
            write_done(gc, changed)
        }
    }
}
