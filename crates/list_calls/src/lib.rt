// The calls of a list, made: each operation is one call of the port.
#![tactic(auto)]

mod after;
pub mod graphics_calls;
pub mod memory;
pub mod sequencer_calls;
pub mod vram_calls;
