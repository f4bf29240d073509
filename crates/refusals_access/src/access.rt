// The refusals of the processor's accesses, and where an address leads.
ghost use Rattle.std.specs.Prelude.{◌≡◌};
ghost use Rattle.bits.specs.Bit.{bit_of};
ghost use Rattle.machine.specs.Answers.{two, outcome, answered, mapped_said};
ghost use Rattle.machine.specs.Address.{offset, a0};
ghost use Rattle.machine.specs.Calls.{access_number};

use crate::address::judge_window;
use machine_types::{GraphicsRegisters, PlaneOffset, Refusal, Sequencer, Shape};
use refusals_memory::judge_memory;
use refusals_records::judge_both;

// Refusals 6, 1, 2, 3, or the offset and a0. In line, since each of the three accesses would pay for the call with some thirty instructions.
#[inline(always)]
#[tactic(auto, unfolding(machine::specs::Calls::access_number, machine::specs::Address::offset, machine::specs::Graphics::memory_map, machine::specs::Graphics::chained))]
pub fn judge_access(
    registers: GraphicsRegisters,
    seq: Sequencer,
    shape: Shape,
    address: usize,
    page: bool,
) -> Result<(PlaneOffset, bool), Refusal>
    ensures { outcome (mapped_said result) address
        ≡ answered (access_number registers seq shape address page) (two (offset registers address page) (bit_of (a0 address))) address address }
{
    judge_both(registers, seq)?;
    judge_memory(shape)?;
    judge_window(registers.miscellaneous, shape.p0, address, page)
}
