// The memory of a list: one byte a plane more than is accepted, one pixel more than goes with that, and how much of each slice is lent to a call.
ghost use Rattle.std.specs.Prelude.{◌≡◌, take};
ghost use Rattle.machine.specs.Memory.{seen, lent, remade_in};
ghost use Rattle.list_calls.specs.Memory.{lent_of};

use machine_types::{Lent, LentToRead, LentToRemake, LentToStore, Shape};

const PLANE: usize = 65537;

const PICTURE: usize = 524297;

#[derive(Drop)]
pub struct Memory {
    p0: [u8; PLANE],
    p1: [u8; PLANE],
    p2: [u8; PLANE],
    p3: [u8; PLANE],
    picture: [u8; PICTURE],
    lent: Shape,
}

impl Memory {
    // All 0, and the lengths of the Rust.
    pub fn new() -> Self {
        Memory {
            p0: [0; PLANE],
            p1: [0; PLANE],
            p2: [0; PLANE],
            p3: [0; PLANE],
            picture: [0; PICTURE],
            lent: Shape::of(65536, 65536, 65536, 65536, 524288),
        }
    }

    pub fn read(&self) -> LentToRead<'_, '_>
        ensures { seen result ≡ lent_of self.now }
    {
        let lent = self.lent;
        Lent {
            p0: first(&self.p0, lent.p0),
            p1: first(&self.p1, lent.p1),
            p2: first(&self.p2, lent.p2),
            p3: first(&self.p3, lent.p3),
            picture: first(&self.picture, lent.picture),
        }
    }

    pub fn store(&mut self) -> LentToStore<'_>
        ensures { lent result ≡ lent_of self.old }
    {
        let lent = self.lent;
        Lent {
            p0: first_mut(&mut self.p0, lent.p0),
            p1: first_mut(&mut self.p1, lent.p1),
            p2: first_mut(&mut self.p2, lent.p2),
            p3: first_mut(&mut self.p3, lent.p3),
            picture: first_mut(&mut self.picture, lent.picture),
        }
    }

    pub fn remake(&mut self) -> LentToRemake<'_, '_>
        ensures { remade_in result ≡ lent_of self.old }
    {
        let lent = self.lent;
        Lent {
            p0: first(&self.p0, lent.p0),
            p1: first(&self.p1, lent.p1),
            p2: first(&self.p2, lent.p2),
            p3: first(&self.p3, lent.p3),
            picture: first_mut(&mut self.picture, lent.picture),
        }
    }

    // A byte into any place of a plane, 0 to 3, or of the picture, 4, lent or not; a place that there is not changes nothing.
    pub fn put(&mut self, slice: usize, place: usize, byte: u8) {
        match slice {
            0 => put(&mut self.p0, place, byte),
            1 => put(&mut self.p1, place, byte),
            2 => put(&mut self.p2, place, byte),
            3 => put(&mut self.p3, place, byte),
            4 => put(&mut self.picture, place, byte),
            _ => {}
        }
    }

    // How much of a slice is lent from now on, where there is as much.
    pub fn lend(&mut self, slice: usize, length: usize) {
        match slice {
            0 => self.lent.p0 = length,
            1 => self.lent.p1 = length,
            2 => self.lent.p2 = length,
            3 => self.lent.p3 = length,
            4 => self.lent.picture = length,
            _ => {}
        }
    }
}

fn first<const N: usize>(bytes: &[u8; N], length: usize) -> &[u8]
    ensures { result.now ≡ take length bytes.now }
{
    &bytes[..length.min(N)]
}

fn first_mut<const N: usize>(bytes: &mut [u8; N], length: usize) -> &mut [u8]
    ensures { result.now ≡ take length bytes.old }
{
    &mut bytes[..length.min(N)]
}

fn put<const N: usize>(bytes: &mut [u8; N], place: usize, byte: u8) {
    if place < N {
        bytes[place] = byte;
    }
}
