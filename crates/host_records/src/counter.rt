// Which counter an access raises.
ghost use Rattle.std.specs.Prelude.{◌≡◌};
ghost use Rattle.machine.specs.Calls.{read_counter, write_counter};
ghost use Rattle.host_records.specs.Records.{counter_number, counter_told, counter_of, answer_number};

use machine_types::{ReadMode, Refusal, WriteMode};

// The counters, in the order of their numbers.
#[derive(Clone, Copy, PartialEq, Eq)]
pub enum Counter {
    Mode0Writes,
    Mode1Writes,
    Mode2Writes,
    Mode3Writes,
    Mode0Reads,
    Mode1Reads,
    RefusedAccesses,
}

// An accepted write's, by the write mode ..
impl From<WriteMode> for Counter {
    ghost from_gives = { λ mode counter. counter_number counter ≡ write_counter mode };

    fn from(mode: WriteMode) -> Counter {
        match mode {
            WriteMode::Mode0 => Counter::Mode0Writes,
            WriteMode::Mode1 => Counter::Mode1Writes,
            WriteMode::Mode2 => Counter::Mode2Writes,
            WriteMode::Mode3 => Counter::Mode3Writes,
        }
    }
}

// .. and an accepted read's, by the read mode.
impl From<ReadMode> for Counter {
    ghost from_gives = { λ mode counter. counter_number counter ≡ read_counter mode };

    fn from(mode: ReadMode) -> Counter {
        match mode {
            ReadMode::ReadSelectedPlane => Counter::Mode0Reads,
            ReadMode::ReadComparedPlanes => Counter::Mode1Reads,
        }
    }
}

impl Counter {
    // The counter that an access raises: its own where it is accepted, that of the refused where it is refused with 2 or 3.
    pub fn of<T: Copy>(answer: Result<T, Refusal>, own: Counter) -> Option<Counter>
        ensures { counter_told result ≡ counter_of (answer_number answer) (counter_number own) }
    {
        match answer {
            Ok(_) => Some(own),
            Err(Refusal::Window | Refusal::Offset) => Some(Counter::RefusedAccesses),
            Err(_) => None,
        }
    }
}
