// A tape's numbers, read from a slice: groups of seven bits, low group first, the top bit set when more follow.
#![tactic(auto)]

ghost use Rattle.std.specs.Prelude.{◌≡◌};
ghost use Rattle.tape_numbers.specs.Numbers.{number_of};

// A number, and how many bytes it took.
#[derive(Clone, Copy, PartialEq, Eq)]
pub struct Number {
    pub value: u64,
    pub taken: usize,
}

// Why there is no number.
#[derive(Clone, Copy, PartialEq, Eq)]
pub enum NumberFault {
    // The input ends inside it.
    Ended,
    // It reaches the limit, or is longer than it need be.
    Damaged,
}

// The number below a limit that a tape begins with.
pub fn read_number(tape: &[u8], limit: u64) -> Result<Number, NumberFault>
    ensures { result ≡ number_of limit tape.now }
{
    let mut value: u64 = 0;
    let mut weight: u64 = 1;
    let mut left = limit;
    for (at, &byte) in tape.iter().enumerate() {
        let group = u64::from(byte);
        if group >= left {
            return Err(NumberFault::Damaged);
        }
        if group < 128 {
            let padded = group == 0 && at > 0;
            if padded {
                return Err(NumberFault::Damaged);
            }
            return Ok(Number {
                value: value + weight * group,
                taken: at + 1,
            });
        }
        value += weight * (group - 128);
        weight *= 128;
        left /= 128;
    }
    Err(NumberFault::Ended)
}
