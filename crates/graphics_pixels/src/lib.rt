// The eight pixels of a show by the shift mode, by value. Every function here is for the crates above.
#![tactic(auto)]

pub mod inner;
