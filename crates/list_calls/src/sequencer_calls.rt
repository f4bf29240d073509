// The sequencer's calls.
use crate::after::{kept, told};
use crate::memory::Memory;
use list_lines::call::{DirectCall, SequencerCall};
use list_lines::said::{Said, answer, part, stored};
use machine_types::{After, Sequencer};
use sequencer::{
    clock, cpu_read_u8, gc_read_u8, peek_u8, plane_and, plane_or, plane_set, poll_clock_change,
    read_address, read_data, read_linear, reset, serialize_linear, set_clock_change_pending,
    write_address, write_data,
};

// On its record: what is said, and the record as it is left.
pub fn on_record(call: SequencerCall, seq: Sequencer) -> After<Sequencer, Said> {
    match call {
        SequencerCall::Reset => kept(reset(seq), Said::Done),
        SequencerCall::Clock => kept(seq, Said::Clock(clock(seq).into())),
        SequencerCall::SetClockChangePending => told(set_clock_change_pending(seq)),
        SequencerCall::PollClockChange => told(poll_clock_change(seq)),
        SequencerCall::ReadAddress => kept(seq, answer(read_address(seq))),
        SequencerCall::ReadData => kept(seq, answer(read_data(seq))),
        SequencerCall::WriteAddress(byte) => told(write_address(seq, byte)),
        SequencerCall::WriteData(byte) => told(write_data(seq, byte)),
    }
}

// On memory.
pub fn on_memory(call: DirectCall, seq: Sequencer, memory: &mut Memory) -> Said {
    match call {
        DirectCall::CpuReadU8(plane, at, a0) => {
            answer(cpu_read_u8(seq, &memory.read(), plane, at, a0))
        }
        DirectCall::PeekU8(plane, at, a0) => answer(peek_u8(seq, &memory.read(), plane, at, a0)),
        DirectCall::GcReadU8(plane, at, a0) => {
            answer(gc_read_u8(seq, &memory.read(), plane, at, a0))
        }
        DirectCall::ReadLinear(place) => answer(read_linear(seq, &memory.read(), place)),
        DirectCall::SerializeLinear(at) => part(serialize_linear(seq, &memory.read(), at)),
        DirectCall::PlaneSet(plane, at, a0, byte) => {
            stored(plane_set(seq, &mut memory.store(), plane, at, a0, byte))
        }
        DirectCall::PlaneAnd(plane, at, a0, byte) => {
            stored(plane_and(seq, &mut memory.store(), plane, at, a0, byte))
        }
        DirectCall::PlaneOr(plane, at, a0, byte) => {
            stored(plane_or(seq, &mut memory.store(), plane, at, a0, byte))
        }
    }
}
