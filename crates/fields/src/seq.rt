// The fields of the sequencer's kept bytes that a call on memory asks for, and its registers by number.
ghost use Rattle.std.specs.Prelude.{◌≡◌};
ghost use Rattle.machine.specs.Sequencer.{seq_odd_even, chain_four, selects_seq, seq_number};

use machine_types::{OddEvenMode, Sequencer, SequencerRegister};

// Memory Mode, bit 2.
pub fn odd_even(seq: Sequencer) -> OddEvenMode
    ensures { result ≡ seq_odd_even seq }
{
    let field = (seq.memory_mode >> 2) & 1;
    match field {
        0 => OddEvenMode::OddEven,
        _ => OddEvenMode::Sequential,
    }
}

// Memory Mode, bit 3.
pub fn chain_four(seq: Sequencer) -> bool
    ensures { result ≡ chain_four seq }
{
    (seq.memory_mode >> 3) & 1 == 1
}

// The register that an address byte selects.
pub fn selected(byte: u8) -> SequencerRegister
    ensures { result ≡ selects_seq byte }
{
    match byte {
        0x00 => SequencerRegister::Reset,
        0x01 => SequencerRegister::ClockingMode,
        0x02 => SequencerRegister::MapMask,
        0x03 => SequencerRegister::CharacterMapSelect,
        0x04 => SequencerRegister::MemoryMode,
        _ => SequencerRegister::Invalid,
    }
}

// A register's number; `Invalid` has one that no data reach.
pub fn register_number(register: SequencerRegister) -> u8
    ensures { result ≡ seq_number register }
{
    register as u8
}
