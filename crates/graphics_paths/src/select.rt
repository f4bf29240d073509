// The planes that an access goes to: the one that a read or a peek answers from, those that a write visits.
ghost use Rattle.std.specs.Prelude.{◌≡◌};
ghost use Rattle.bits.specs.Bit.{of_bits, bit_of};
ghost use Rattle.machine.specs.DataPath.{map_selected, selected_plane, peeked_plane, visits};
ghost use Rattle.machine.specs.Sequencer.{answers_from};

use machine_types::{GraphicsRegisters, OddEvenModeComplement, Sequencer};

// The plane that an access answers from: under chain-four the one that the offset's low two bits name, else the one that the access names.
#[tactic(auto, unfolding(machine::specs::Sequencer::answers_from))]
fn answers_from(seq: Sequencer, offset: usize, plane: usize) -> usize
    ensures { result ≡ answers_from seq offset plane }
{
    if fields::seq::chain_four(seq) {
        return offset & 0x03;
    }
    plane
}

// The map select's plane; under odd/even the address's bit 0 takes the place of its own.
fn map_selected(registers: GraphicsRegisters, address: usize) -> usize
    ensures { result ≡ map_selected registers address }
{
    let select = registers.read_map_select as usize;
    let mode = fields::gc::odd_even(registers);
    match mode {
        OddEvenModeComplement::Sequential => select,
        OddEvenModeComplement::OddEven => (select & !1) | (address & 1),
    }
}

// The plane of a selected-plane read, by its address and the offset that this leads to.
#[tactic(auto, unfolding(machine::specs::DataPath::selected_plane))]
pub fn selected_plane(
    registers: GraphicsRegisters,
    seq: Sequencer,
    address: usize,
    offset: usize,
) -> usize
    ensures { result ≡ selected_plane registers seq address offset }
{
    answers_from(seq, offset, map_selected(registers, address))
}

// The plane of a peek: plane 0, but for chain-four.
#[tactic(auto, unfolding(machine::specs::DataPath::peeked_plane))]
pub fn peeked_plane(seq: Sequencer, offset: usize) -> usize
    ensures { result ≡ peeked_plane seq offset }
{
    answers_from(seq, offset, 0)
}

// The planes that a write visits, as four bits: all, or a0 and 2 + a0.
#[tactic(auto, using(fields::proofs::Bit0::bit0_is), unfolding(bits::specs::Bit::of_bits, machine::specs::DataPath::visits))]
pub fn visited(registers: GraphicsRegisters, address: usize) -> u8
    ensures { result ≡ of_bits 4 (λ p. bit_of (visits registers address p)) }
{
    let mode = fields::gc::odd_even(registers);
    match mode {
        OddEvenModeComplement::Sequential => 0b1111,
        OddEvenModeComplement::OddEven => { if address & 1 == 1 { 0b1010 } else { 0b0101 } }
    }
}
