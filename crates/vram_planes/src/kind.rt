// The three stores by plane.

// What a store makes of the byte given and the plane's byte.
#[derive(Clone, Copy)]
pub enum PlaneStore {
    Set,
    And,
    Or,
}
