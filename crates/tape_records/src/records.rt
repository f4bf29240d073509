// A tape's records: an operation and its arguments, judged left to right, each for damage and then for range before the next is read.
ghost use Rattle.std.specs.Prelude.{◌≡◌, None};
ghost use Rattle.tape_records.specs.Records.{fault_of, record_of};

use crate::arguments::Arguments;
use machine_types::PlaneOffset;
use tape_numbers::{NumberFault, read_number};

// Numbers of a tape are below this.
pub(crate) const LIMIT: u64 = 4294967296;

// What a whole record asks for, in the order of the operations' numbers, 0 to 8.
#[derive(Clone, Copy)]
pub enum Command {
    Reset,
    GcAddress(u8),
    GcData(u8),
    SeqAddress(u8),
    SeqData(u8),
    Read {
        address: usize,
        page: bool,
    },
    Write {
        address: usize,
        page: bool,
        byte: u8,
    },
    Peek {
        address: usize,
        page: bool,
    },
    Show(PlaneOffset),
}

// Why a record is not whole: the input ends inside it, a number is damaged, or one is out of range.
#[derive(Clone, Copy, PartialEq, Eq)]
pub enum Fault {
    Open,
    Damage,
    Range,
}

impl From<NumberFault> for Fault {
    ghost from_gives = { λ number fault. fault ≡ fault_of number };

    fn from(fault: NumberFault) -> Fault {
        match fault {
            NumberFault::Ended => Fault::Open,
            NumberFault::Damaged => Fault::Damage,
        }
    }
}

// A record that asks for something; the bytes that it took are counted from its start.
#[derive(Clone, Copy)]
pub struct Whole {
    pub command: Command,
    pub taken: usize,
}

// A record that does not, and its operation, where that was read.
#[derive(Clone, Copy, PartialEq, Eq)]
pub struct Broken {
    pub operation: Option<u64>,
    pub fault: Fault,
}

// No operation was read.
impl From<NumberFault> for Broken {
    ghost from_gives = { λ number broken. broken ≡ record { operation = None; fault = fault_of number } };

    fn from(fault: NumberFault) -> Broken {
        Broken {
            operation: None,
            fault: Fault::from(fault),
        }
    }
}

pub type Record = Result<Whole, Broken>;

// The record that a tape begins with.
pub fn decode(tape: &[u8]) -> Record
    ensures { result ≡ record_of tape.now }
{
    let operation = read_number(tape, LIMIT)?;
    let mut arguments = Arguments {
        tape,
        taken: operation.taken,
    };
    match arguments.command(operation.value) {
        Ok(command) => Ok(Whole {
            command,
            taken: arguments.taken,
        }),
        Err(fault) => Err(Broken {
            operation: Some(operation.value),
            fault,
        }),
    }
}
