// A record of a tape performed.
#![tactic(auto)]

mod calls;

pub use calls::{Performed, perform};
