// The eight pixels of an offset: where they stand, how they are remade, and the part of the picture that they are. Every function here is for the crates above.
#![tactic(auto)]

pub mod inner;
