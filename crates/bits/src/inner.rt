// What the crates above may call, and a host may not.
ghost use Rattle.std.specs.Prelude.{◌≡◌, ◌<◌};
ghost use Rattle.bits.specs.Bit.{bit, byte_of};

// One bit of a byte, eight times.
pub fn spread(byte: u8, index: u8) -> u8
    requires { index < 8 }
    ensures { result ≡ byte_of (λ i. bit index byte) }
{
    if byte & (1 << index) != 0 {
        return 0xFF;
    }
    0x00
}
