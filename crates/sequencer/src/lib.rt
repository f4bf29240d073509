// The sequencer: its direct stores on the lent memory, its direct reads (`sequencer_reads`), and its registers, which have no memory (`sequencer_registers`).
#![tactic(auto)]

mod direct;

pub use direct::{plane_and, plane_or, plane_set};
pub use sequencer_reads::{cpu_read_u8, gc_read_u8, peek_u8, read_linear, serialize_linear};
pub use sequencer_registers::{
    clock, poll_clock_change, read_address, read_data, reset, set_clock_change_pending,
    write_address, write_data,
};
