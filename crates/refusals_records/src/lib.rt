// Refusal 6: whether each register of a record holds a value that it can hold.
#![tactic(auto)]

ghost use Rattle.std.specs.Prelude.{◌≡◌};
ghost use Rattle.machine.specs.Graphics.{fits_gc};
ghost use Rattle.machine.specs.Sequencer.{fits_seq};
ghost use Rattle.machine.specs.Answers.{done_said};
ghost use Rattle.machine.specs.Calls.{refuse, fits_both};

use machine_types::{GraphicsRegisters, Refusal, Sequencer};

// The controller's.
pub fn fits_gc(registers: GraphicsRegisters) -> bool
    ensures { result ≡ fits_gc registers }
{
    // five registers of four bits, in one test
    let four_bits = registers.register_select_byte
        | registers.set_reset
        | registers.enable_set_reset
        | registers.color_compare
        | registers.color_dont_care;
    let four_bits_fit = four_bits <= 15;
    four_bits_fit && registers.read_map_select <= 3
}

// The sequencer's.
#[tactic(auto, unfolding(machine::specs::Sequencer::fits_seq))]
pub fn fits_seq(seq: Sequencer) -> bool
    ensures { result ≡ fits_seq seq }
{
    seq.reset <= 3
        && seq.map_mask <= 15
        && seq.clocking_mode <= 63
        && seq.character_map_select <= 63
        && seq.memory_mode <= 63
}

// Both records, of a call that is handed both.
#[tactic(auto, unfolding(machine::specs::Calls::fits_both))]
pub fn fits_both(registers: GraphicsRegisters, seq: Sequencer) -> bool
    ensures { result ≡ fits_both registers seq }
{
    fits_gc(registers) && fits_seq(seq)
}

// Refusal 6, of a call that is handed the controller's record ..
pub fn judge_gc(registers: GraphicsRegisters) -> Result<(), Refusal>
    ensures { (done_said result).number ≡ refuse (fits_gc registers) 6 0 }
{
    refused_unless(fits_gc(registers))
}

// .. the sequencer's ..
pub fn judge_seq(seq: Sequencer) -> Result<(), Refusal>
    ensures { (done_said result).number ≡ refuse (fits_seq seq) 6 0 }
{
    refused_unless(fits_seq(seq))
}

// .. or both.
pub fn judge_both(registers: GraphicsRegisters, seq: Sequencer) -> Result<(), Refusal>
    ensures { (done_said result).number ≡ refuse (fits_both registers seq) 6 0 }
{
    refused_unless(fits_both(registers, seq))
}

fn refused_unless(fits: bool) -> Result<(), Refusal>
    ensures { (done_said result).number ≡ refuse fits 6 0 }
{
    if fits { Ok(()) } else { Err(Refusal::State) }
}
