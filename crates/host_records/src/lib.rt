// The records that a host keeps, of numbers and flags, read as the machine's and back, and an answer with the record that a call leaves. No call is performed here.
#![tactic(auto)]

pub mod counter;
pub mod left;
pub mod record;
