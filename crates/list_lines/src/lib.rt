// The lines of a list of calls and of what it prints: calls read, answers and whole states told.
#![tactic(auto)]

pub mod call;
pub mod digest;
pub mod line;
pub mod said;
