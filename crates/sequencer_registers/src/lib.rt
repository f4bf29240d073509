// The sequencer without its memory: its ports and its clock. The record stands in `machine_types`.
#![tactic(auto)]

mod registers;

pub use registers::{
    clock, poll_clock_change, read_address, read_data, reset, set_clock_change_pending,
    write_address, write_data,
};
