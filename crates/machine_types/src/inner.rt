// What the crates above may call, and a host may not: a slice's byte, whose caller has judged the place.
ghost use Rattle.std.specs.Prelude.{◌≡◌, ℕ, ◌<◌, List, length, get_or};

// A slice, lent to be read or to be stored into.
pub trait Bytes {
    ghost bytes: { Self → List ℕ };

    fn count(&self) -> usize
        ensures { result ≡ length (bytes self.now) };

    fn byte(&self, at: usize) -> u8
        requires { at < length (bytes self.now) }
        ensures { result ≡ get_or (bytes self.now) at 0 };
}

impl Bytes for &[u8] {
    ghost bytes = { λ s. s.now };

    fn count(&self) -> usize {
        self.len() // lent to a read
    }

    fn byte(&self, at: usize) -> u8 {
        self[at] // lent to a read
    }
}

impl Bytes for &mut [u8] {
    ghost bytes = { λ s. s.now };

    fn count(&self) -> usize {
        self.len() // lent to a store
    }

    fn byte(&self, at: usize) -> u8 {
        self[at] // lent to a store
    }
}
