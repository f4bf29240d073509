// What an emulator in C or Rust links: every call of `host` under its own name, with the same equation. Nothing but exports stands here.
#![tactic(auto)]

mod access;
mod direct;
mod planes;
mod ports;
mod sequencer_ports;
