// What an access works out without memory, beside the bytes of a write (`graphics_bytes`): the planes that it goes to, the compared colours, its counter.
#![tactic(auto)]

mod compare;
mod count;
mod select;

pub use compare::pixel_op_compare;
pub use count::{counted_read, counted_refusal, counted_write};
pub use select::{peeked_plane, selected_plane, visited};
