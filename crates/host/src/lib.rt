// What an emulator in C or Rust calls: every call under a plain name, over records of numbers; the controller's record is updated where it stands, the sequencer's by its two port writes.
#![tactic(auto)]

pub mod access;
pub mod direct;
pub mod planes;
pub mod ports;
pub mod sequencer_ports;
