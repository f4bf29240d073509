// Four planes and their picture, as lent: read, and stored with the pixels remade. Every function here is for the crates above.
#![tactic(auto)]

pub mod inner;
mod kind;

pub use kind::PlaneStore;
