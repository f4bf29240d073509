// A tape's records, read from a slice. Nothing is performed here.
#![tactic(auto)]

mod arguments;
mod records;

pub use records::{Broken, Command, Fault, Record, Whole, decode};
