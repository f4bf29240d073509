// What the crates above may call, and a host may not: functions that ask something of their caller, who has judged the offset.
ghost use Rattle.std.specs.Prelude.{◌≡◌, [], ◌∷◌, ◌*◌, ◌/◌, ◌+◌, ◌<◌, ◌≤◌, length, get_or, take, drop};
ghost use Rattle.machine.specs.Memory.{seen, Shaped};
ghost use Rattle.machine.specs.Deeds.{eight as eight_of, nibble, pair, shown_in};
ghost use Rattle.machine.specs.Calls.{last_shown};

use machine_types::{LentToRead, PlaneOffset, ShiftMode};
use vram_planes::inner::byte as plane_byte;

// `Chain4`: of each byte the high four bits, then the low four.
#[tactic(auto, using(crate::proofs::Parts::nibbles_are))]
fn nibbles(b0: u8, b1: u8, b2: u8, b3: u8) -> [u8; 8]
    ensures { result ≡ eight_of (λ j. nibble j (get_or (b0 ∷ b1 ∷ b2 ∷ b3 ∷ []) (j / 2) 0)) }
{
    [
        b0 >> 4,
        b0 & 0x0F,
        b1 >> 4,
        b1 & 0x0F,
        b2 >> 4,
        b2 & 0x0F,
        b3 >> 4,
        b3 & 0x0F,
    ]
}

// `CGACompatible`: of each byte four times two bits, leftmost first.
#[tactic(auto, using(crate::proofs::Parts::pairs_are))]
fn pairs(first: u8, second: u8) -> [u8; 8]
    ensures { result ≡ eight_of (λ j. pair j (get_or (first ∷ second ∷ []) (j / 4) 0)) }
{
    [
        first >> 6,
        (first >> 4) & 3,
        (first >> 2) & 3,
        first & 3,
        second >> 6,
        (second >> 4) & 3,
        (second >> 2) & 3,
        second & 3,
    ]
}

// The picture's own eight pixels of an offset, copied out.
fn copied(picture: &[u8], offset: PlaneOffset) -> [u8; 8]
    requires { (offset.0 ≤ 65535) × (8 * offset.0 + 8 ≤ length picture.now) }
    ensures { result ≡ take 8 (drop (8 * offset.0) picture.now) }
{
    let part = vram_pixels::inner::eight(picture, offset);
    part.try_into().unwrap()
}

// `Chain4`: pixels 2i and 2i + 1 from plane i.
#[tactic(auto, unfolding(machine::specs::Deeds::shown_in, machine::specs::Deeds::chain4_pixel))]
fn chain4(memory: &LentToRead, at: usize) -> [u8; 8]
    requires { Shaped (seen memory.now) × (at < length (seen memory.now).p0) }
    ensures { result ≡ shown_in ShiftMode.Chain4 (seen memory.now) at }
{
    let b0 = plane_byte(memory, 0, at);
    let b1 = plane_byte(memory, 1, at);
    let b2 = plane_byte(memory, 2, at);
    let b3 = plane_byte(memory, 3, at);
    nibbles(b0, b1, b2, b3)
}

// `CGACompatible`: four pixels from plane 0, then four from plane 1 at the next offset.
#[tactic(auto, unfolding(machine::specs::Deeds::shown_in, machine::specs::Deeds::cga_pixel))]
fn cga(memory: &LentToRead, at: usize) -> [u8; 8]
    requires { Shaped (seen memory.now) × (at + 1 < length (seen memory.now).p0) }
    ensures { result ≡ shown_in ShiftMode.CGACompatible (seen memory.now) at }
{
    let first = plane_byte(memory, 0, at);
    let second = plane_byte(memory, 1, at + 1);
    pairs(first, second)
}

// The standard modes from the picture; the other two by the plane read, at the offset as it stands.
#[tactic(auto, using(crate::proofs::Bounds::picture_fits, crate::proofs::Bounds::planes_fit), unfolding(machine::specs::Deeds::shown_in))]
pub fn shown(mode: ShiftMode, memory: &LentToRead, offset: PlaneOffset) -> [u8; 8]
    requires { Shaped (seen memory.now) × (last_shown mode offset.0 < length (seen memory.now).p0) }
    ensures { result ≡ shown_in mode (seen memory.now) offset.0 }
{
    let at = offset.0;
    match mode {
        ShiftMode::Standard | ShiftMode::Unused => copied(memory.picture, offset),
        ShiftMode::CGACompatible => cga(memory, at),
        ShiftMode::Chain4 => chain4(memory, at),
    }
}
