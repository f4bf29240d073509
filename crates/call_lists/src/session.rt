// A session: where its lines go, how many calls there were, both records and the memory.
use crate::settings;
use list_calls::memory::Memory;
use list_calls::{graphics_calls, sequencer_calls, vram_calls};
use list_lines::call::{Call, Setting};
use list_lines::digest::Digest;
use list_lines::line::Listed;
use list_lines::said::Said;
use machine_types::{After, GraphicsController, Sequencer};
use std::io::Stdout;

#[derive(Drop)]
pub struct Session {
    to: Stdout,
    calls: u64,
    gc: GraphicsController,
    seq: Sequencer,
    memory: Memory,
}

impl Session {
    pub fn new(to: Stdout) -> Self {
        Session {
            to,
            calls: 0,
            gc: GraphicsController::new(),
            seq: Sequencer::new(),
            memory: Memory::new(),
        }
    }

    // Makes a line's call and prints what it says; what is no call is told and changes nothing. A line that cannot be written is dropped.
    pub fn take(&mut self, listed: Listed) {
        self.calls = self.calls.wrapping_add(1);
        let calls = self.calls;
        let operation = listed.operation;
        let _ = match listed.call {
            Ok(call) => {
                let said = self.made(call);
                println!(self.to; "{calls} {operation} {said}")
            }
            Err(no_call) => println!(self.to; "{calls} {operation} {no_call}"),
        };
    }

    fn made(&mut self, call: Call) -> Said {
        match call {
            Call::Digest => Said::Digest(Digest::of(self.gc, self.seq, &self.memory.read())),
            Call::Vram(call) => vram_calls::made(call, &mut self.memory),
            Call::Sequencer(call) => self.sequencer(sequencer_calls::on_record(call, self.seq)),
            Call::Direct(call) => sequencer_calls::on_memory(call, self.seq, &mut self.memory),
            Call::Graphics(call) => self.controller(graphics_calls::on_record(call, self.gc)),
            Call::Cpu(call) => {
                let after = graphics_calls::on_memory(call, self.gc, self.seq, &mut self.memory);
                self.controller(after)
            }
            Call::Set(setting) => self.set(setting),
        }
    }

    fn sequencer(&mut self, after: After<Sequencer, Said>) -> Said {
        self.seq = after.next;
        after.answer
    }

    fn controller(&mut self, after: After<GraphicsController, Said>) -> Said {
        self.gc = after.next;
        after.answer
    }

    fn set(&mut self, setting: Setting) -> Said {
        match setting {
            Setting::Controller(field, value) => settings::controller(&mut self.gc, field, value),
            Setting::Sequencer(field, value) => settings::sequencer(&mut self.seq, field, value),
            Setting::Byte(slice, place, byte) => self.memory.put(slice, place, byte),
            Setting::Length(slice, length) => self.memory.lend(slice, length),
        }
        Said::Done
    }
}
