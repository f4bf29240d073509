// The lengths of four planes and a picture: all that a refusal may know of the memory.
ghost use Rattle.std.specs.Prelude.{◌≡◌};
ghost use Rattle.machine_types.specs.Lengths.{shape_of};

#[derive(Clone, Copy)]
pub struct Shape {
    pub p0: usize,
    pub p1: usize,
    pub p2: usize,
    pub p3: usize,
    pub picture: usize,
}

impl Shape {
    // By numbers, whatever lends the memory.
    pub fn of(p0: usize, p1: usize, p2: usize, p3: usize, picture: usize) -> Self
        ensures { result ≡ shape_of p0 p1 p2 p3 picture }
    {
        Shape {
            p0,
            p1,
            p2,
            p3,
            picture,
        }
    }
}
