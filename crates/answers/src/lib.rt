// The machine's answers in numbers, for whoever hands them on: a host, a tape, a list. 0 or a refusal's number, and a value beside it. No call is performed here.
#![tactic(auto)]

mod narrow;
mod wide;

pub use narrow::{Answer, AsByte, done, of_pixel, refused, unknown};
pub use wide::{Clock, Mapped, Shown, Stored, unknown_shown, unknown_stored};
