// What the calls answer: `Ok` with what was asked for, or the refusal. machine's specs/Answers.antt gives each answer's number and value.

// The refusals, in the order of their numbers, 1 to 10.
#[derive(Clone, Copy, PartialEq, Eq)]
pub enum Refusal {
    // 1: plane lengths differ, n is 0 or above 65,536, or the picture isn't 8n long
    Memory = 1,
    // 2: the address is outside the current window, or the map is B0000_32K
    Window,
    // 3: a plane offset is n or more
    Offset,
    // 4: a plane number is above 3
    Plane,
    // 5: a shown offset is n or more, of a show in CGACompatible the next one too, or a pixel place is 8n or more
    Place,
    // 6: the state holds a value its registers cannot
    State,
    // 7: a tape number is damaged
    Damaged,
    // 8: a tape operation or argument is out of range
    Range,
    // 9: the older show while the shift mode is Chain4 or CGACompatible
    Shift,
    // 10: a lent buffer is too short
    Room,
}

// How many of the eight bits of each plane's byte a store changed.
#[derive(Clone, Copy)]
pub struct Changed {
    pub p0: u8,
    pub p1: u8,
    pub p2: u8,
    pub p3: u8,
}

// State in, state out: what a call answers, and the record as it is left.
#[derive(Clone, Copy)]
pub struct After<R, A> {
    pub answer: A,
    pub next: R,
}

// An older show: the caller's own eight pixels, or an empty part where it is refused.
#[derive(Clone, Copy)]
pub struct Part<'p> {
    pub answer: Result<(), Refusal>,
    pub pixels: &'p [u8],
}
