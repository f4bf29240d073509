// Answers whose value is a byte: what was read, a pixel, a mark, an enum's place in its order, nothing.
ghost use Rattle.std.specs.Prelude.{◌≡◌, ℕ};
ghost use Rattle.bits.specs.Bit.{bit_of};
ghost use Rattle.machine.specs.Answers.{one, said_by, refusal_number, pixel_said, map_number, odd_even_number, shift_number};
ghost use Rattle.answers.specs.Answers.{answer_said, pixel_answer_said, answer_of};

use machine_types::{MemoryMap, OddEvenModeComplement, Refusal, ShiftMode};

#[repr(C)]
#[derive(Clone, Copy)]
pub struct Answer {
    pub number: u8,
    pub value: u8,
}

// What a call hands back, told by a byte.
pub trait AsByte {
    ghost byte: { Self → ℕ };

    fn as_byte(self) -> u8
        ensures { result ≡ byte self };
}

impl AsByte for u8 {
    ghost byte = { λ x. x };

    fn as_byte(self) -> u8 {
        self
    }
}

// Where a call hands nothing back.
impl AsByte for () {
    ghost byte = { λ _. 0 };

    fn as_byte(self) -> u8 {
        0
    }
}

impl AsByte for bool {
    ghost byte = { bit_of };

    fn as_byte(self) -> u8 {
        u8::from(self)
    }
}

impl AsByte for MemoryMap {
    ghost byte = { map_number };

    fn as_byte(self) -> u8 {
        self as u8
    }
}

impl AsByte for OddEvenModeComplement {
    ghost byte = { odd_even_number };

    fn as_byte(self) -> u8 {
        self as u8
    }
}

impl AsByte for ShiftMode {
    ghost byte = { shift_number };

    fn as_byte(self) -> u8 {
        self as u8 // its place in its order: Chain4 is 2
    }
}

impl<T: AsByte> From<Result<T, Refusal>> for Answer {
    ghost from_gives = { λ given a. answer_said a ≡ said_by (λ x. one (T.byte x)) (one 0) given };

    fn from(given: Result<T, Refusal>) -> Answer {
        match given {
            Ok(x) => Answer {
                number: 0,
                value: x.as_byte(),
            },
            Err(refusal) => refused(refusal),
        }
    }
}

pub fn of_pixel(answer: Result<u8, Refusal>) -> Answer
    ensures { pixel_answer_said result ≡ pixel_said answer }
{
    Answer::from(answer)
}

pub fn done() -> Answer
    ensures { result ≡ answer_of 0 0 }
{
    Answer::from(Ok(()))
}

pub fn refused(refusal: Refusal) -> Answer
    ensures { result ≡ answer_of (refusal_number refusal) 0 }
{
    Answer {
        number: fields::refusal_number(refusal),
        value: 0,
    }
}

// Refusal 6, for a number that selects no register.
pub fn unknown() -> Answer
    ensures { result ≡ answer_of 6 0 }
{
    refused(Refusal::State)
}
