// The arguments of a record, in their order, and the command that they make with its operation.
ghost use Rattle.std.specs.Prelude.{◌≡◌, ◌<◌, ◌≤◌, length};

use crate::records::{Command, Fault, LIMIT};
use machine_types::PlaneOffset;
use tape_numbers::read_number;

// A tape from a record's start on, and how many of its bytes have been read.
#[derive(Drop)]
pub struct Arguments<'a> {
    pub tape: &'a [u8],
    pub taken: usize,
    pub ghost within: { taken ≤ length tape.now },
}

impl Arguments<'_> {
    ghost use Rattle.bits.specs.Bit.{bit_of};
    ghost use Rattle.tape_records.specs.Records.{greatest_byte, greatest_page, greatest_number, first_of};
    ghost use Rattle.tape_records.specs.Arguments.{Reads, made};

    // The next argument: damage before range.
    fn next(&mut self, greatest: u64) -> Result<u64, Fault>
        requires { 0 < greatest }
        ensures { Reads (λ x. x) greatest self.old self.new result }
    {
        let number = read_number(&self.tape[self.taken..], LIMIT)?;
        if number.value > greatest {
            return Err(Fault::Range);
        }
        self.taken += number.taken;
        Ok(number.value)
    }

    fn byte(&mut self) -> Result<u8, Fault>
        ensures { Reads (λ x. x) greatest_byte self.old self.new result }
    {
        Ok(self.next(255)? as u8)
    }

    fn page(&mut self) -> Result<bool, Fault>
        ensures { Reads bit_of greatest_page self.old self.new result }
    {
        Ok(self.next(1)? == 1)
    }

    // An address or an offset is any number.
    fn place(&mut self) -> Result<usize, Fault>
        ensures { Reads (λ x. x) greatest_number self.old self.new result }
    {
        Ok(self.next(LIMIT - 1)? as usize)
    }

    // The command of an operation, its arguments read.
    pub fn command(&mut self, operation: u64) -> Result<Command, Fault>
        ensures { first_of self.old.tape.now operation self.old.taken ≡ made operation self.new.taken result }
    {
        match operation {
            0 => Ok(Command::Reset),
            1 => Ok(Command::GcAddress(self.byte()?)),
            2 => Ok(Command::GcData(self.byte()?)),
            3 => Ok(Command::SeqAddress(self.byte()?)),
            4 => Ok(Command::SeqData(self.byte()?)),
            5 => Ok(Command::Read {
                address: self.place()?,
                page: self.page()?,
            }),
            6 => Ok(Command::Write {
                address: self.place()?,
                page: self.page()?,
                byte: self.byte()?,
            }),
            7 => Ok(Command::Peek {
                address: self.place()?,
                page: self.page()?,
            }),
            8 => Ok(Command::Show(PlaneOffset(self.place()?))),
            _ => Err(Fault::Range),
        }
    }
}
