// Answers whose value is wider than a byte: a clock, where an address leads, eight pixels, how much a store changed.
ghost use Rattle.std.specs.Prelude.{◌≡◌, []};
ghost use Rattle.machine.specs.Answers.{changes, said, clock_said, mapped_said, older_said, part_said, store_said};
ghost use Rattle.answers.specs.Wide.{clock_answer_said, mapped_answer_said, shown_of, in_numbers, stored_of};

use machine_types::{Changed, Part, PlaneOffset, Refusal};

// The character clock.
#[repr(C)]
#[derive(Clone, Copy)]
pub struct Clock {
    pub clock: u32,
    pub number: u8,
}

// Where an address leads: the offset, and bit 0 of the address.
#[repr(C)]
#[derive(Clone, Copy)]
pub struct Mapped {
    pub offset: usize,
    pub number: u8,
    pub a0: u8,
}

// The eight pixels of a show by value, of the older one too, since a part of a lent slice cannot cross the boundary; eight zeros where refused.
#[repr(C)]
#[derive(Clone, Copy)]
pub struct Shown {
    pub pixels: [u8; 8],
    pub number: u8,
}

// How many bits of each plane's byte a store changed; four zeros where refused.
#[repr(C)]
#[derive(Clone, Copy)]
pub struct Stored {
    pub changed: [u8; 4],
    pub number: u8,
}

impl From<Result<u32, Refusal>> for Clock {
    ghost from_gives = { λ given a. clock_answer_said a ≡ clock_said given };

    fn from(given: Result<u32, Refusal>) -> Clock {
        match given {
            Ok(clock) => Clock { clock, number: 0 },
            Err(refusal) => Clock {
                clock: 0,
                number: fields::refusal_number(refusal),
            },
        }
    }
}

impl From<Result<(PlaneOffset, bool), Refusal>> for Mapped {
    ghost from_gives = { λ given a. mapped_answer_said a ≡ mapped_said given };

    fn from(given: Result<(PlaneOffset, bool), Refusal>) -> Mapped {
        match given {
            Ok((offset, a0)) => Mapped {
                offset: offset.0,
                number: 0,
                a0: a0 as u8,
            },
            Err(refusal) => Mapped {
                offset: 0,
                number: fields::refusal_number(refusal),
                a0: 0,
            },
        }
    }
}

impl From<Result<[u8; 8], Refusal>> for Shown {
    ghost from_gives = { λ given a. a ≡ in_numbers given };

    fn from(given: Result<[u8; 8], Refusal>) -> Shown {
        match given {
            Ok(pixels) => Shown { pixels, number: 0 },
            Err(refusal) => {
                let number = fields::refusal_number(refusal);
                Shown {
                    pixels: [0u8; 8],
                    number,
                }
            }
        }
    }
}

// An older show's eight pixels, where there are eight.
impl From<Part<'_>> for Shown {
    ghost from_gives = { λ given a. a ≡ shown_of (older_said given) };

    fn from(given: Part<'_>) -> Shown {
        let number = match given.answer {
            Ok(()) => 0,
            Err(refusal) => fields::refusal_number(refusal),
        };
        let pixels = <[u8; 8]>::try_from(given.pixels).unwrap_or([0u8; 8]);
        Shown { pixels, number }
    }
}

impl From<Result<Changed, Refusal>> for Stored {
    ghost from_gives = { λ given a. a ≡ stored_of (store_said given) };

    fn from(given: Result<Changed, Refusal>) -> Stored {
        match given {
            Ok(x) => Stored {
                changed: [x.p0, x.p1, x.p2, x.p3],
                number: 0,
            },
            Err(refusal) => Stored {
                changed: [0u8; 4],
                number: fields::refusal_number(refusal),
            },
        }
    }
}

pub fn unknown_shown() -> Shown
    ensures { result ≡ shown_of (part_said 6 []) }
{
    Shown::from(Err(Refusal::State))
}

pub fn unknown_stored() -> Stored
    ensures { result ≡ stored_of (said 6 (changes 0 0 0 0)) }
{
    Stored::from(Err(Refusal::State))
}
