// The plane masks that the sequencer's registers make, and where chain-four leads. Every function here is for the crates above.
#![tactic(auto)]

pub mod inner;
