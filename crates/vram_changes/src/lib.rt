// How much a store changed: how many bits of a plane's byte, and the four planes' numbers together. Every function here is for the crates above.
#![tactic(auto)]

pub mod inner;
