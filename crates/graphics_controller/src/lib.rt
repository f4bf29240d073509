// The graphics controller: the processor's accesses and the shows, and what has no memory: its registers (`graphics_registers`) and `map_address` (`graphics_address`).
#![tactic(auto)]

mod access;
mod show;

pub use access::{cpu_peek_u8, cpu_read_u8, cpu_write_u8};
pub use graphics_address::map_address;
pub use graphics_registers::{
    chain, chain4, memory_map, odd_even, read_address, read_data, reset, shift_mode, write_address,
    write_data,
};
pub use show::{serialize, show_pixels};
