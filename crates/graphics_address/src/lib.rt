// The way from an address to a plane offset, on the record alone: the call, answered with no memory at hand.
#![tactic(auto)]

ghost use Rattle.std.specs.Prelude.{◌≡◌};
ghost use Rattle.machine.specs.Answers.{outcome, mapped_said};
ghost use Rattle.machine.specs.Calls.{gc_map_address};
ghost use Rattle.machine.specs.Step.{graphics_step};

use machine_types::{GraphicsController, PlaneOffset, Refusal};
use refusals_access::judge_window;
use refusals_records::judge_gc;

// Of any memory: every offset of 16 bits is within 65,536.
#[tactic(auto, using(crate::proofs::Anywhere::mapped_anywhere), unfolding(machine::specs::Step::graphics_step, machine::specs::Calls::gc_number_of, machine::specs::Calls::gc_value, machine::specs::Calls::gc_next, machine::specs::Address::offset, machine::specs::Graphics::memory_map, machine::specs::Graphics::chained))]
pub fn map_address(
    gc: GraphicsController,
    address: usize,
    page: bool,
) -> Result<(PlaneOffset, bool), Refusal>
    ensures { outcome (mapped_said result) gc ≡ graphics_step gc (gc_map_address address page) }
{
    judge_gc(gc.registers)?;
    judge_window(gc.registers.miscellaneous, 65536, address, page)
}
