// The refusals that a record and memory decide together: of an address that is accessed (2 and 3), of a direct call by plane (6, 1, 4, 3), of the controller's shows (9, and 5 by the shift mode).
#![tactic(auto)]

mod access;
mod address;
mod direct;
mod show;

pub use access::judge_access;
pub use address::judge_window;
pub use direct::judge_direct;
pub use show::{judge_pixels, judge_show};
