// Text, written into a lent slice that has room for it.
ghost use Rattle.std.specs.Prelude.{◌≡◌, [], ◌∷◌, take};
ghost use Rattle.tape_machine.specs.Text.{decimal_of, field_of, hex_of, hexes_of};
ghost use Rattle.tape_reader.specs.Writes.{HasRoom, Writes};

// A slice, and the place after what was written into it. All but `decimal` are inlined, or each byte would load and store the place.
#[derive(Drop)]
pub struct Text<'a> {
    pub out: &'a mut [u8],
    pub at: usize,
}

impl Text<'_> {
    #[inline(always)]
    pub fn put(&mut self, byte: u8)
        requires { HasRoom (byte ∷ []) self.old }
        ensures { Writes (byte ∷ []) self.old self.new }
    {
        self.out[self.at] = byte;
        self.at += 1;
    }

    // A number in decimal.
    pub fn decimal(&mut self, number: u64)
        requires { HasRoom (decimal_of number) self.old }
        ensures { Writes (decimal_of number) self.old self.new }
    {
        if number < 10 {
            return self.put(b'0' + number as u8);
        }
        self.decimal(number / 10);
        self.put(b'0' + (number % 10) as u8);
    }

    // A number in decimal, and the blank after it.
    #[inline(always)]
    pub fn field(&mut self, number: u64)
        requires { HasRoom (field_of number) self.old }
        ensures { Writes (field_of number) self.old self.new }
    {
        self.decimal(number);
        self.put(b' ');
    }

    // A show's pixels, a digit each.
    #[inline(always)]
    pub fn digits(&mut self, pixels: [u8; 8])
        requires { HasRoom (hexes_of (take 8 pixels)) self.old }
        ensures { Writes (hexes_of (take 8 pixels)) self.old self.new }
    {
        for pixel in pixels {
            self.put(digit(pixel));
        }
    }
}

// The digit of a pixel's low four bits.
fn digit(pixel: u8) -> u8
    ensures { result ≡ hex_of pixel }
{
    b"0123456789ABCDEF"[usize::from(pixel & 15)]
}
