// A line of a list: up to five decimal numbers, an operation and its arguments; '#' begins a comment.
ghost use Rattle.std.specs.Prelude.{◌≡◌, ◌≢◌, None};

use crate::call::{Call, NoCall};

// What a line says: its operation's number as it is given, and the call, or why it is none.
#[derive(Clone, Copy)]
pub struct Listed {
    pub operation: usize,
    pub call: Result<Call, NoCall>,
}

// What the next byte is part of.
#[derive(Clone, Copy)]
enum Within {
    // nothing: a number may begin
    Blank,
    // a number, which is this so far
    Number(usize),
    Comment,
}

// A line as far as it is read.
#[derive(Clone, Copy)]
pub struct Line {
    numbers: [usize; 5],
    // how many of them are complete
    count: usize,
    // whether it has more than are kept
    overlong: bool,
    within: Within,
}

impl Line {
    pub fn new() -> Self {
        Line {
            numbers: [0; 5],
            count: 0,
            overlong: false,
            within: Within::Blank,
        }
    }

    // One byte more. A newline begins a new line, and tells what the old one said, where it had a number.
    pub fn feed(&mut self, byte: u8) -> Option<Listed>
        ensures { byte ≢ 10 → result ≡ None }
    {
        match (byte, self.within) {
            (b'\n', _) => return self.ended(),
            (_, Within::Comment) => {}
            (b'#', _) => {
                self.close();
                self.within = Within::Comment;
            }
            (b'0'..=b'9', Within::Number(number)) => self.digit(number, byte - b'0'),
            (b'0'..=b'9', Within::Blank) => self.digit(0, byte - b'0'),
            _ => self.close(),
        }
        None
    }

    // A number with one digit more, modulo 2^64.
    fn digit(&mut self, number: usize, digit: u8) {
        let next = number.wrapping_mul(10).wrapping_add(usize::from(digit));
        self.within = Within::Number(next);
    }

    // What parts two numbers.
    fn close(&mut self) {
        if let Within::Number(number) = self.within {
            if self.count < 5 {
                self.numbers[self.count] = number;
                self.count += 1;
            } else {
                self.overlong = true;
            }
        }
        self.within = Within::Blank;
    }

    fn ended(&mut self) -> Option<Listed> {
        self.close();
        let line = *self;
        *self = Line::new();
        if line.count == 0 {
            return None;
        }
        let numbers = line.numbers;
        let call = if line.overlong {
            Err(NoCall::Overlong)
        } else {
            Call::try_from(numbers)
        };
        Some(Listed {
            operation: numbers[0],
            call,
        })
    }
}
