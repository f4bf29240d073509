// Lent memory: four planes of n bytes each, and a picture of 8n bytes, one per pixel. Any lengths can be lent; a call judges them.
ghost use Rattle.std.specs.Prelude.{◌≡◌, length};
ghost use Rattle.machine_types.specs.Lengths.{shape_of};
ghost use Rattle.machine_types.specs.Slices.{ReadsSame};

use crate::inner::Bytes;
use crate::shape::Shape;

// The planes are lent alike, and the picture as they are or otherwise.
#[derive(Clone, Copy, Drop)]
pub struct Lent<P, Q> {
    pub p0: P,
    pub p1: P,
    pub p2: P,
    pub p3: P,
    pub picture: Q,
}

// To a read; a show's part of the picture may outlive the planes' loan.
pub type LentToRead<'m, 'p> = Lent<&'m [u8], &'p [u8]>;

// To a store.
pub type LentToStore<'m> = Lent<&'m mut [u8], &'m mut [u8]>;

// To `deplane`, which stores into the picture alone.
pub type LentToRemake<'m, 'p> = Lent<&'m [u8], &'p mut [u8]>;

impl<P: Bytes, Q: Bytes> Lent<P, Q> {
    // The five lengths: all that a refusal may know of the memory.
    pub fn shape(&self) -> Shape
        ensures { result ≡ shape_of (length (P.bytes self.now.p0)) (length (P.bytes self.now.p1)) (length (P.bytes self.now.p2)) (length (P.bytes self.now.p3)) (length (Q.bytes self.now.picture)) }
    {
        Shape::of(
            self.p0.count(),
            self.p1.count(),
            self.p2.count(),
            self.p3.count(),
            self.picture.count(),
        )
    }
}

impl LentToStore<'_> {
    // The same memory, to be read while it is lent to a store.
    pub fn as_read<'s>(&'s self) -> LentToRead<'s, 's>
        ensures { ReadsSame result self.now }
    {
        let p0 = &*self.p0;
        let p1 = &*self.p1;
        let p2 = &*self.p2;
        let p3 = &*self.p3;
        let picture = &*self.picture;
        Lent {
            p0,
            p1,
            p2,
            p3,
            picture,
        }
    }
}
