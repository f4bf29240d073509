// A record's line, into a slice that has room for it: its number, its operation, the answer's number, its value.
ghost use Rattle.tape_machine.specs.Told.{told_said};
ghost use Rattle.tape_machine.specs.Lines.{name_of, value_text, line_of};
ghost use Rattle.tape_reader.specs.Writes.{HasRoom, Writes};

use crate::text::Text;
use answers::Answer;
use tape_machine::Told;

impl Text<'_> {
    // An operation's number, or '-' where it was not read, and the blank after it.
    #[inline(always)]
    fn name(&mut self, operation: Option<u64>)
        requires { HasRoom (name_of operation) self.old }
        ensures { Writes (name_of operation) self.old self.new }
    {
        match operation {
            Some(number) => self.field(number),
            None => {
                self.put(b'-');
                self.put(b' ');
            }
        }
    }

    // A byte in decimal, eight digits for a show, 0 for a show that was refused and for every write.
    #[inline(always)]
    fn value(&mut self, told: Told)
        requires { HasRoom (value_text (told_said told).number (told_said told).value) self.old }
        ensures { Writes (value_text (told_said told).number (told_said told).value) self.old self.new }
    {
        match told {
            Told::Byte(given) => {
                let answer = Answer::from(given);
                self.decimal(u64::from(answer.value));
            }
            Told::Pixels(_, Ok(pixels)) => self.digits(pixels),
            Told::Pixels(_, Err(_)) => self.decimal(0),
            Told::Changes(_) => self.decimal(0),
        }
    }

    #[inline(always)]
    pub fn line(&mut self, number: u64, operation: Option<u64>, told: Told)
        requires { HasRoom (line_of number operation (told_said told)) self.old }
        ensures { Writes (line_of number operation (told_said told)) self.old self.new }
    {
        self.field(number);
        self.name(operation);
        self.field(u64::from(told.number()));
        self.value(told);
        self.put(b'\n');
    }
}
