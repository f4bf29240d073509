// The logic step of a write on whole bytes: data and latch by the function, under a mask.
ghost use Rattle.std.specs.Prelude.{◌≡◌};
ghost use Rattle.bits.specs.Bit.{bit, byte_of};
ghost use Rattle.machine.specs.DataPath.{masked};
ghost use Rattle.machine.specs.Deeds.{latch as at};
ghost use Rattle.graphics_bytes.specs.PlaneBytes.{four};

use machine_types::LogicFunction;

// A mask bit 1 takes the function of data and latch, a 0 the latch.
fn logic_step(function: LogicFunction, mask: u8, data: u8, latch: u8) -> u8
    ensures { result ≡ byte_of (λ i. masked function (bit i mask) (bit i «data») (bit i latch)) }
{
    match function {
        LogicFunction::Unmodified => (data & mask) | (!mask & latch),
        LogicFunction::And => (data | !mask) & latch,
        LogicFunction::Or => (data & mask) | latch,
        LogicFunction::Xor => (data & mask) ^ latch,
    }
}

// The logic step of each plane, under one mask.
pub fn logic_steps(function: LogicFunction, mask: u8, data: [u8; 4], latches: [u8; 4]) -> [u8; 4]
    ensures { result ≡ four (λ p. byte_of (λ i. masked function (bit i mask) (bit i (at «data» p)) (bit i (at latches p)))) }
{
    [
        logic_step(function, mask, data[0], latches[0]),
        logic_step(function, mask, data[1], latches[1]),
        logic_step(function, mask, data[2], latches[2]),
        logic_step(function, mask, data[3], latches[3]),
    ]
}
