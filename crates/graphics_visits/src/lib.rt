// What a write does to memory: the planes that it visits, and the pixels of its offset. Every function here is for the crates above.
#![tactic(auto)]

pub mod inner;
