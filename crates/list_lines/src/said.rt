// What a line of a list is told, as its text: an answer in the document's numbers, as `answers` gives it.
use crate::digest::Digest;
use answers::{Answer, AsByte, Clock, Mapped, Shown, Stored};
use machine_types::{Changed, Part, Refusal};
use std::fmt;

// The answer's number, and what is handed back.
#[derive(Clone, Copy)]
pub enum Said {
    // done, with nothing handed back
    Done,
    Answer(Answer),
    Clock(Clock),
    Mapped(Mapped),
    // of an older show, which has one 0 where it was refused
    Part(Shown),
    // of a show, which has eight pixels, refused or not
    Shown(Shown),
    Stored(Stored),
    Digest(Digest),
}

// What a byte tells.
pub fn answer<T: AsByte>(given: Result<T, Refusal>) -> Said {
    Said::Answer(given.into())
}

pub fn part(given: Part) -> Said {
    Said::Part(given.into())
}

pub fn stored(given: Result<Changed, Refusal>) -> Said {
    Said::Stored(given.into())
}

impl fmt::Display for Said {
    fn fmt<W: fmt::Write>(&self, f: &mut fmt::Formatter<W>) -> fmt::Result {
        match self {
            Said::Done => write!(f, "0 0"),
            Said::Answer(x) => write!(f, "{} {}", x.number, x.value),
            Said::Clock(x) => write!(f, "{} {}", x.number, x.clock),
            Said::Mapped(x) => write!(f, "{} {} {}", x.number, x.offset, x.a0),
            Said::Part(x) => {
                if x.number == 0 {
                    shown(f, *x)
                } else {
                    write!(f, "{} 0", x.number)
                }
            }
            Said::Shown(x) => shown(f, *x),
            Said::Stored(x) => {
                let [p0, p1, p2, p3] = x.changed;
                write!(f, "{} {p0} {p1} {p2} {p3}", x.number)
            }
            Said::Digest(x) => write!(f, "0{x}"),
        }
    }
}

// Eight hexadecimal digits: the low four bits of each pixel, the leftmost first.
fn shown<W: fmt::Write>(f: &mut fmt::Formatter<W>, x: Shown) -> fmt::Result {
    let mut digits: u32 = 0;
    for pixel in x.pixels {
        digits = (digits << 4) | u32::from(pixel % 16);
    }
    write!(f, "{} {digits:08X}", x.number)
}
