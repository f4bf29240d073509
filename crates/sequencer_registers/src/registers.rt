// The sequencer's ports, its clock and the pending mark. Each call judges the whole record first, `reset` excepted.
#![tactic(auto, unfolding(machine::specs::Step::sequencer_step, machine::specs::Calls::seq_number_of, machine::specs::Calls::seq_value, machine::specs::Calls::seq_next, machine::specs::Sequencer::with_mark, machine::specs::Sequencer::with_seq_address))]

ghost use Rattle.std.specs.Prelude.{◌≡◌};
ghost use Rattle.machine.specs.Answers.{said, one, outcome, byte_said, done_said, flag_said, clock_said};
ghost use Rattle.machine.specs.Sequencer.{seq_data_of, with_seq_data, divisor_of, clock_of};
ghost use Rattle.machine.specs.Calls.{seq_reset, seq_clock, seq_set_clock_change_pending, seq_poll_clock_change, seq_read_address, seq_read_data, seq_write_address, seq_write_data};
ghost use Rattle.machine.specs.Step.{sequencer_step};

use machine_types::{After, Refusal, Sequencer, SequencerRegister};
use refusals_records::judge_seq;

// The start record, whatever stood there before.
pub fn reset(seq: Sequencer) -> Sequencer
    ensures { outcome (said 0 (one 0)) result ≡ sequencer_step seq seq_reset }
{
    Sequencer::new()
}

pub fn clock(seq: Sequencer) -> Result<u32, Refusal>
    ensures { outcome (clock_said result) seq ≡ sequencer_step seq seq_clock }
{
    judge_seq(seq)?;
    Ok(seq.char_clock)
}

pub fn set_clock_change_pending(mut seq: Sequencer) -> After<Sequencer, Result<(), Refusal>>
    ensures { outcome (done_said result.answer) result.next ≡ sequencer_step seq seq_set_clock_change_pending }
{
    if let Err(refusal) = judge_seq(seq) {
        return After {
            answer: Err(refusal),
            next: seq,
        };
    }
    seq.clock_change_pending = true;
    After {
        answer: Ok(()),
        next: seq,
    }
}

// The mark as it stood; it is clear afterwards.
pub fn poll_clock_change(mut seq: Sequencer) -> After<Sequencer, Result<bool, Refusal>>
    ensures { outcome (flag_said result.answer) result.next ≡ sequencer_step seq seq_poll_clock_change }
{
    if let Err(refusal) = judge_seq(seq) {
        return After {
            answer: Err(refusal),
            next: seq,
        };
    }
    let pending = seq.clock_change_pending;
    seq.clock_change_pending = false;
    After {
        answer: Ok(pending),
        next: seq,
    }
}

pub fn read_address(seq: Sequencer) -> Result<u8, Refusal>
    ensures { outcome (byte_said result) seq ≡ sequencer_step seq seq_read_address }
{
    judge_seq(seq)?;
    Ok(seq.address_byte)
}

pub fn write_address(mut seq: Sequencer, byte: u8) -> After<Sequencer, Result<(), Refusal>>
    ensures { outcome (done_said result.answer) result.next ≡ sequencer_step seq (seq_write_address byte) }
{
    if let Err(refusal) = judge_seq(seq) {
        return After {
            answer: Err(refusal),
            next: seq,
        };
    }
    seq.address_byte = byte;
    seq.register_selected = fields::seq::selected(byte);
    After {
        answer: Ok(()),
        next: seq,
    }
}

// The register that stands selected, as it is kept.
#[tactic(auto, unfolding(machine::specs::Sequencer::seq_data_of))]
fn kept(seq: Sequencer) -> u8
    ensures { result ≡ seq_data_of seq.register_selected seq }
{
    match seq.register_selected {
        SequencerRegister::Reset => seq.reset,
        SequencerRegister::ClockingMode => seq.clocking_mode,
        SequencerRegister::MapMask => seq.map_mask,
        SequencerRegister::CharacterMapSelect => seq.character_map_select,
        SequencerRegister::MemoryMode => seq.memory_mode,
        SequencerRegister::Invalid => 0xFF,
    }
}

pub fn read_data(seq: Sequencer) -> Result<u8, Refusal>
    ensures { outcome (byte_said result) seq ≡ sequencer_step seq seq_read_data }
{
    judge_seq(seq)?;
    Ok(kept(seq))
}

// The divisor and the character clock that Clocking Mode sets: bit 0 clear is nine dots, bit 3 set halves the clock.
fn clocking(mode: u8) -> (u32, u32)
    ensures { (result.0 ≡ divisor_of mode) × (result.1 ≡ clock_of mode) }
{
    let eight_dots = mode & 1 == 1;
    let half_clock = (mode >> 3) & 1 == 1;
    match (half_clock, eight_dots) {
        (false, true) => (1, 8),
        (false, false) => (1, 9),
        (true, true) => (2, 16),
        (true, false) => (2, 18),
    }
}

// The record after a data byte went to the register that stands selected.
#[tactic(auto, unfolding(machine::specs::Sequencer::with_seq_data, machine::specs::Sequencer::seq_keeps), using(crate::proofs::Laws::kept))]
fn with_seq_data(mut seq: Sequencer, byte: u8) -> Sequencer
    ensures { result ≡ with_seq_data byte seq }
{
    let data = byte & 0x3F;
    match seq.register_selected {
        SequencerRegister::Reset => seq.reset = data & 0x03,
        SequencerRegister::ClockingMode => {
            seq.clocking_mode = data;
            seq.clock_change_pending = true;
            (seq.clock_divisor, seq.char_clock) = clocking(data);
        }
        SequencerRegister::MapMask => seq.map_mask = data & 0x0F,
        SequencerRegister::CharacterMapSelect => seq.character_map_select = data,
        SequencerRegister::MemoryMode => seq.memory_mode = data,
        SequencerRegister::Invalid => {}
    }
    seq
}

pub fn write_data(seq: Sequencer, byte: u8) -> After<Sequencer, Result<(), Refusal>>
    ensures { outcome (done_said result.answer) result.next ≡ sequencer_step seq (seq_write_data byte) }
{
    if let Err(refusal) = judge_seq(seq) {
        return After {
            answer: Err(refusal),
            next: seq,
        };
    }
    After {
        answer: Ok(()),
        next: with_seq_data(seq, byte),
    }
}
