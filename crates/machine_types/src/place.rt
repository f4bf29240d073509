// Offsets and places: two counts that are never taken for one another.

// A plane offset counts bytes of a plane.
#[derive(Clone, Copy)]
pub struct PlaneOffset(pub usize);

// A pixel place counts pixels of the picture.
#[derive(Clone, Copy)]
pub struct PixelPlace(pub usize);
