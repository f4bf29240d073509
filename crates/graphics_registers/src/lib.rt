// The controller without its memory: its ports, and the fields that are asked for. The record stands in `machine_types`.
#![tactic(auto)]

mod registers;

pub use registers::{
    chain, chain4, data_of, memory_map, odd_even, read_address, read_data, reset, shift_mode,
    write_address, write_data,
};
