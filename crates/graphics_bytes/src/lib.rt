// The byte that a write hands to each plane: the byte rotated, Set/Reset and the logic step, by the write mode.
#![tactic(auto)]

mod logic;

ghost use Rattle.std.specs.Prelude.{◌≡◌, ◌<◌, ◌≤◌};
ghost use Rattle.bits.specs.Bit.{bit, byte_of, is_one, pick};
ghost use Rattle.machine.specs.DataPath.{rotated};
ghost use Rattle.graphics_bytes.specs.PlaneBytes.{plane_bytes, four};

use bits::inner::spread;
use logic::logic_steps;
use machine_types::{GraphicsRegisters, WriteMode};

// Eight bits turned right.
#[tactic(auto, using(crate::proofs::Bytes::turned))]
fn rotate_right_u8(byte: u8, count: u8) -> u8
    requires { count < 8 }
    ensures { result ≡ byte_of (rotated count byte) }
{
    byte.rotate_right(count as u32)
}

// The Set/Reset step: a plane whose Enable bit is set takes its Set/Reset bit, spread, in place of the data.
fn set_reset(registers: GraphicsRegisters, data: u8, plane: u8) -> u8
    requires { plane ≤ 3 }
    ensures { result ≡ pick (is_one (bit plane registers.enable_set_reset)) (byte_of (λ i. bit plane registers.set_reset)) «data» }
{
    if registers.enable_set_reset & (1 << plane) != 0 {
        return spread(registers.set_reset, plane);
    }
    data
}

// The Set/Reset step of each plane. Where Enable is 0, as at the start, every plane has the data, and no plane's bit is looked at.
#[tactic(auto, unfolding(bits::specs::Bit::bit))]
fn set_resets(registers: GraphicsRegisters, data: u8) -> [u8; 4]
    ensures { result ≡ four (λ p. pick (is_one (bit p registers.enable_set_reset)) (byte_of (λ i. bit p registers.set_reset)) «data») }
{
    if registers.enable_set_reset == 0 {
        return [data, data, data, data];
    }
    [
        set_reset(registers, data, 0),
        set_reset(registers, data, 1),
        set_reset(registers, data, 2),
        set_reset(registers, data, 3),
    ]
}

// Each plane's bit of a byte, spread.
fn spreads(byte: u8) -> [u8; 4]
    ensures { result ≡ four (λ p. byte_of (λ i. bit p byte)) }
{
    [
        spread(byte, 0),
        spread(byte, 1),
        spread(byte, 2),
        spread(byte, 3),
    ]
}

// The four planes' bytes, by each mode's mask and data. Mode 1 has no bit in its mask, so that it stores latches; mode 3 does not look at Enable.
pub fn plane_bytes(
    mode: WriteMode,
    registers: GraphicsRegisters,
    latches: [u8; 4],
    byte: u8,
) -> [u8; 4]
    ensures { result ≡ four (plane_bytes mode registers byte latches) }
{
    let turned = rotate_right_u8(byte, fields::gc::rotate_count(registers));
    let function = fields::gc::function(registers);
    let mask = registers.bitmask;
    match mode {
        WriteMode::Mode0 => {
            let data = set_resets(registers, turned);
            logic_steps(function, mask, data, latches)
        }
        WriteMode::Mode1 => logic_steps(function, 0x00, latches, latches),
        WriteMode::Mode2 => {
            let data = spreads(byte);
            logic_steps(function, mask, data, latches)
        }
        WriteMode::Mode3 => {
            let data = spreads(registers.set_reset);
            logic_steps(function, turned & mask, data, latches)
        }
    }
}
