// What a record's call answers, by what it hands back: a line needs a number and a value, and the value of a refusal depends on the call too.
ghost use Rattle.std.specs.Prelude.{◌≡◌};
ghost use Rattle.machine.specs.Answers.{byte_said, done_said, shown_said, store_said};
ghost use Rattle.tape_machine.specs.Told.{told_said};
ghost use Rattle.tape_machine.specs.Run.{fault_said};

use answers::{Answer, Shown, Stored};
use machine_types::{Changed, Refusal, ShiftMode};
use tape_records::Fault;

#[derive(Clone, Copy)]
pub enum Told {
    // A byte that was read; 0 where a call hands nothing back.
    Byte(Result<u8, Refusal>),
    // A show: the shift mode that it was made in, and its pixels.
    Pixels(ShiftMode, Result<[u8; 8], Refusal>),
    // A write: how much of each plane changed. A line does not tell it.
    Changes(Result<Changed, Refusal>),
}

impl From<Result<u8, Refusal>> for Told {
    ghost from_gives = { λ given told. told_said told ≡ byte_said given };

    fn from(given: Result<u8, Refusal>) -> Told {
        Told::Byte(given)
    }
}

impl From<Result<(), Refusal>> for Told {
    ghost from_gives = { λ given told. told_said told ≡ done_said given };

    fn from(given: Result<(), Refusal>) -> Told {
        Told::Byte(given.map(|()| 0))
    }
}

impl From<Result<Changed, Refusal>> for Told {
    ghost from_gives = { λ given told. told_said told ≡ store_said given };

    fn from(given: Result<Changed, Refusal>) -> Told {
        Told::Changes(given)
    }
}

// A show in a shift mode, and its pixels.
impl From<(ShiftMode, Result<[u8; 8], Refusal>)> for Told {
    ghost from_gives = { λ given told. told_said told ≡ shown_said given.0 given.1 };

    fn from(given: (ShiftMode, Result<[u8; 8], Refusal>)) -> Told {
        let (mode, pixels) = given;
        Told::Pixels(mode, pixels)
    }
}

// What a broken record answers: 7 or 8.
impl From<Fault> for Told {
    ghost from_gives = { λ fault told. told_said told ≡ fault_said fault };

    fn from(fault: Fault) -> Told {
        Told::Byte(Err(match fault {
            Fault::Open | Fault::Damage => Refusal::Damaged,
            Fault::Range => Refusal::Range,
        }))
    }
}

impl Told {
    // 0, or the refusal's number.
    pub fn number(self) -> u8
        ensures { result ≡ (told_said self).number }
    {
        match self {
            Told::Byte(answer) => Answer::from(answer).number,
            Told::Pixels(_, answer) => Shown::from(answer).number,
            Told::Changes(answer) => Stored::from(answer).number,
        }
    }
}
