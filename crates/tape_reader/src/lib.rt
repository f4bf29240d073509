// The tape: a whole tape run, from any state or from the program's start, its lines written as text.
#![tactic(auto)]

mod lines;
mod program;
mod records;
mod text;
mod whole;

pub use program::run_from_start;
pub use tape_calls::{Performed, perform};
pub use tape_machine::{Ran, Told};
pub use whole::{LONGEST, run};
