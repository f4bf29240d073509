// A write's planes: which are stored, their bytes laid plane by plane, and the offset's eight pixels remade once.
ghost use Rattle.std.specs.Prelude.{◌≡◌, true, ◌<◌, ◌≤◌, eqb, length};
ghost use Rattle.bits.specs.Bit.{bit, is_one, pick};
ghost use Rattle.machine_types.specs.Slices.{SameSlices};
ghost use Rattle.machine.specs.Memory.{lent, Shaped};
ghost use Rattle.machine.specs.Answers.{changes_of, changed_value};
ghost use Rattle.machine.specs.Graphics.{write_mode};
ghost use Rattle.machine.specs.Sequencer.{fits_seq, stored_at};
ghost use Rattle.machine.specs.Address.{a0 as bit0};
ghost use Rattle.machine.specs.Deeds.{latch, laid, changed_at, memory_after};
ghost use Rattle.machine.specs.Calls.{write_deed};
ghost use Rattle.graphics_visits.specs.Writes.{stores_to};

use graphics_bytes::plane_bytes;
use graphics_paths::visited;
use machine_types::{
    Changed, GraphicsController, GraphicsRegisters, LentToStore, OddEvenMode,
    OddEvenModeComplement, Sequencer,
};
use sequencer_masks::inner::{mask, stored_at};
use vram_changes::inner::unchanged;
use vram_pixels::inner::remake;
use vram_planes::PlaneStore;
use vram_planes::inner::lay;

// Where a write goes: the planes that it stores, as four bits, and the offset that it stores at.
#[derive(Clone, Copy)]
struct Target {
    planes: u8,
    place: usize,
}

// The planes visited that the mask lets through. Chain-four, and both sides sequential, which visits every plane, stand apart: each then pays for its own tests alone.
#[tactic(auto, using(crate::proofs::Planes::both_masks, crate::proofs::Planes::mask_alone, crate::proofs::Planes::stays))]
fn target_of(
    registers: GraphicsRegisters,
    seq: Sequencer,
    at: usize,
    a0: bool,
    address: usize,
) -> Target
    requires { (fits_seq seq ≡ true) × (a0 ≡ bit0 address) }
    ensures { (result.planes ≡ stores_to registers seq address at) × (result.place ≡ stored_at seq at) }
{
    if fields::seq::chain_four(seq) {
        let planes = visited(registers, address) & mask(seq, at, a0);
        let place = stored_at(seq, at);
        return Target { planes, place };
    }
    let place = at;
    let visits_all = fields::gc::odd_even(registers) == OddEvenModeComplement::Sequential;
    if visits_all && fields::seq::odd_even(seq) == OddEvenMode::Sequential {
        let planes = mask(seq, at, a0);
        return Target { planes, place };
    }
    let planes = visited(registers, address) & mask(seq, at, a0);
    Target { planes, place }
}

// One plane's visit, and how many bits it changed: its byte laid where it is stored, and no pixel moved.
#[tactic(auto, using(machine::proofs::Changes::unchanged), unfolding(machine::specs::Deeds::changed_at))]
fn visit_plane(memory: &mut LentToStore, target: Target, bytes: [u8; 4], plane: usize) -> u8
    requires { Shaped (lent memory.old) × ((target.place < length (lent memory.old).p0) × (plane ≤ 3)) }
    ensures same_slices { SameSlices memory.old memory.new }
    ensures down { lent memory.new
        ≡ pick (is_one (bit plane target.planes)) (laid target.place (λ q. eqb q plane) (λ q. latch bytes plane) (lent memory.old)) (lent memory.old) }
    ensures counted { result ≡ changed_at (lent memory.old) (lent memory.new) target.place plane }
    ensures within { Shaped (lent memory.new) × (target.place < length (lent memory.new).p0) }
{
    if target.planes & (1 << plane) != 0 {
        return lay(memory, plane, target.place, PlaneStore::Set, bytes[plane]);
    }
    0
}

// The four planes visited in turn, and how many bits of each changed.
fn visit(memory: &mut LentToStore, target: Target, bytes: [u8; 4]) -> Changed
    requires { Shaped (lent memory.old) × (target.place < length (lent memory.old).p0) }
    ensures same_slices { SameSlices memory.old memory.new }
    ensures down { lent memory.new ≡ laid target.place (λ p. is_one (bit p target.planes)) (latch bytes) (lent memory.old) }
    ensures counted { changed_value result ≡ changes_of (changed_at (lent memory.old) (lent memory.new) target.place) }
{
    Changed {
        p0: visit_plane(memory, target, bytes, 0),
        p1: visit_plane(memory, target, bytes, 1),
        p2: visit_plane(memory, target, bytes, 2),
        p3: visit_plane(memory, target, bytes, 3),
    }
}

// What a write does to the memory, in every mode, and how much it changed. Where no plane is stored, no pixel is remade; where one is, they are, changed or not.
pub fn write_planes(
    gc: GraphicsController,
    seq: Sequencer,
    memory: &mut LentToStore,
    at: usize,
    a0: bool,
    address: usize,
    byte: u8,
) -> Changed
    requires { Shaped (lent memory.old) × ((at < length (lent memory.old).p0) × ((fits_seq seq ≡ true) × (a0 ≡ bit0 address))) }
    ensures same_slices { SameSlices memory.old memory.new }
    ensures stored { lent memory.new ≡ memory_after (write_deed (write_mode gc.registers) gc.registers seq address at byte) gc.latches (lent memory.old) }
    ensures counted { changed_value result ≡ changes_of (changed_at (lent memory.old) (lent memory.new) (stored_at seq at)) }
{
    let target = target_of(gc.registers, seq, at, a0, address);
    let none = target.planes == 0;
    if none {
        return unchanged();
    }
    let mode = fields::gc::write_mode(gc.registers);
    let bytes = plane_bytes(mode, gc.registers, gc.latches, byte);
    let changed = visit(memory, target, bytes);
    remake(memory, target.place);
    changed
}
