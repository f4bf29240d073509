// What a tape does: specs/ says it, over the types of its answers, which stand here. Nothing is performed.
#![tactic(auto)]

mod ran;
mod told;

pub use ran::Ran;
pub use told::Told;
