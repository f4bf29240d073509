// Bytes as bits. What the crates above cite stands in specs/ (definitions) and proofs/ (their laws); one function makes a byte of a bit.
#![tactic(auto)]

pub mod inner;
