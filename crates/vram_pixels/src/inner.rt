// What the crates above may call, and a host may not: functions that ask something of their caller, who has judged the offset.
ghost use Rattle.std.specs.Prelude.{◌≡◌, [], ◌∷◌, ◌+◌, ◌*◌, ◌^◌, ◌<◌, ◌≤◌, length, take, drop};
ghost use Rattle.std.specs.Int.Bits.{bit_and};
ghost use Rattle.bits.specs.Bit.{bit, field, of_bits};
ghost use Rattle.std.specs.Prelude.{◌-◌};
ghost use Rattle.std.proofs.lemmas.List.Edits.{sets};
ghost use Rattle.machine_types.specs.Slices.{SamePicture};
ghost use Rattle.machine.specs.Memory.{behind, Shaped};
ghost use Rattle.machine.specs.Answers.{part, done_said, said_by, older_said};
ghost use Rattle.machine.specs.Deeds.{remade, eight as eight_of};
ghost use Rattle.vram_pixels.specs.Word.{of_bytes, turned, came_from};

use machine_types::inner::Bytes;
use machine_types::{Lent, Part, PixelPlace, PlaneOffset, Refusal};

// The place of the first of an offset's eight pixels: the one conversion between the two counts.
pub fn first_pixel(offset: PlaneOffset) -> PixelPlace
    requires { offset.0 ≤ 65536 }
    ensures { result.0 ≡ 8 * offset.0 }
{
    PixelPlace(8 * offset.0)
}

// An offset's eight pixels, as a part of the picture.
pub fn eight<'p>(picture: &'p [u8], offset: PlaneOffset) -> &'p [u8]
    requires { (offset.0 ≤ 65535) × (8 * offset.0 + 8 ≤ length picture.now) }
    ensures { result.now ≡ take 8 (drop (8 * offset.0) picture.now) }
{
    let first = first_pixel(offset);
    let place = first.0;
    let end = place + 8;
    &picture[place..end]
}

// A show's answer, and the part that goes with it: an offset's eight pixels, or an empty part where it is refused.
pub fn part<'p>(picture: &'p [u8], offset: PlaneOffset, answer: Result<(), Refusal>) -> Part<'p>
    requires { (done_said answer).number ≡ 0 → (offset.0 ≤ 65535) × (8 * offset.0 + 8 ≤ length picture.now) }
    ensures { older_said result ≡ said_by (λ x. part (take 8 (drop (8 * offset.0) picture.now))) (part []) answer }
{
    match answer {
        Ok(()) => Part {
            answer,
            pixels: eight(picture, offset),
        },
        Err(_) => Part {
            answer,
            pixels: &picture[0..0],
        },
    }
}

// Four planes' bytes in one word: plane p's is byte p.
fn one_word(b0: u8, b1: u8, b2: u8, b3: u8) -> u32
    ensures { result ≡ of_bytes (b0 ∷ b1 ∷ b2 ∷ b3 ∷ []) }
{
    (b0 as u32) | ((b1 as u32) << 8) | ((b2 as u32) << 16) | ((b3 as u32) << 24)
}

// Each bit under the mask exchanged with the one that stands the distance above it; no bit may be in two exchanges.
fn exchange(word: u64, distance: u8, mask: u64) -> u64
    requires { (distance < 64) × (bit_and mask (mask * 2 ^ distance) ≡ 0) }
    ensures { result ≡ of_bits 64 (λ k. bit (came_from distance mask k) word) }
{
    let differ = (word ^ (word >> distance)) & mask;
    let both = differ | (differ << distance);
    word ^ both
}

// Four planes' bytes turned into eight: byte j has bit j of each plane, plane p's as bit p, and so is pixel 7 - j.
// Below, pj is plane p's bit j, and a byte is shown from its bit 3 down, as bits 7 to 4 are 0. Bytes 7 to 4 are the same, with bits 7 to 4 of the planes for bits 3 to 0.
//
//             byte 3       byte 2       byte 1       byte 0
//     halves  33 32 31 30  23 22 21 20  13 12 11 10  03 02 01 00
//     pairs   33 32 13 12  23 22 03 02  31 30 11 10  21 20 01 00    bits 3, 2 of bytes 1 and 0 exchanged with bits 1, 0 of bytes 3 and 2
//     turned  33 23 13 03  32 22 12 02  31 21 11 01  30 20 10 00    bits 3, 1 of bytes 2 and 0 exchanged with bits 2, 0 of bytes 3 and 1
fn turn(b0: u8, b1: u8, b2: u8, b3: u8) -> u64
    ensures { result ≡ of_bytes (turned (b0 ∷ b1 ∷ b2 ∷ b3 ∷ [])) }
{
    let planes = one_word(b0, b1, b2, b3);
    let low = (planes & 0x0F0F0F0F) as u64;
    let high = (planes & 0xF0F0F0F0) as u64;
    let halves = low | (high << 28);
    let pairs = exchange(halves, 14, 0x00000C0C_00000C0C);
    exchange(pairs, 7, 0x000A000A_000A000A)
}

// Byte j of a word.
fn byte_of(word: u64, j: u8) -> u8
    requires { j < 8 }
    ensures { result ≡ field (8 * j) 8 word }
{
    ((word >> (8 * j)) & 0xFF) as u8
}

// The eight bytes of a word, stored from its byte 7 down.
fn put_eight(picture: &mut [u8], place: usize, pixels: u64)
    requires { place + 8 ≤ length picture.old }
    ensures { picture.new ≡ sets picture.old place (eight_of (λ i. field (8 * (7 - i)) 8 pixels)) }
{
    picture[place] = byte_of(pixels, 7);
    picture[place + 1] = byte_of(pixels, 6);
    picture[place + 2] = byte_of(pixels, 5);
    picture[place + 3] = byte_of(pixels, 4);
    picture[place + 4] = byte_of(pixels, 3);
    picture[place + 5] = byte_of(pixels, 2);
    picture[place + 6] = byte_of(pixels, 1);
    picture[place + 7] = byte_of(pixels, 0);
}

// An offset's eight pixels remade, of planes lent in either way: pixel i has bit 7 - i of each plane, and is byte 7 - i of the turned word.
pub fn remake<P: Bytes>(memory: &mut Lent<P, &mut [u8]>, at: usize)
    requires { Shaped (behind P.bytes (λ s. s.now) memory.old) × (at < length (P.bytes memory.old.p0)) }
    ensures same_slices { SamePicture memory.old memory.new }
    ensures does { behind P.bytes (λ s. s.now) memory.new ≡ remade at (behind P.bytes (λ s. s.now) memory.old) }
{
    let b0 = memory.p0.byte(at);
    let b1 = memory.p1.byte(at);
    let b2 = memory.p2.byte(at);
    let b3 = memory.p3.byte(at);
    let first = first_pixel(PlaneOffset(at));
    put_eight(memory.picture, first.0, turn(b0, b1, b2, b3));
}
