// What the code reads off the types: the fields of kept bytes, and a refusal's number.
#![tactic(auto)]

pub mod gc;
mod refusal;
pub mod seq;

pub use refusal::refusal_number;
