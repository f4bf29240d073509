// What the crates above may call, and a host may not: the plane mask, and where chain-four leads.
ghost use Rattle.std.specs.Prelude.{◌≡◌, true};
ghost use Rattle.machine.specs.Sequencer.{fits_seq, stored_at, gc_read_at};
ghost use Rattle.sequencer_masks.specs.Mask.{mask_of};

use machine_types::{OddEvenMode, Sequencer};

// Planes 0 and 2; shifted left by a0, planes 1 and 3.
const ODD_EVEN_MASK: u8 = 0b0101;

// The planes that a store at an offset reaches, plane p as bit p.
pub fn mask(seq: Sequencer, offset: usize, a0: bool) -> u8
    requires { fits_seq seq ≡ true }
    ensures { result ≡ mask_of seq offset a0 }
{
    let map_mask = seq.map_mask;
    let shift = a0 as u8;
    if fields::seq::chain_four(seq) {
        return 1 << (offset & 0x03);
    }
    let odd_even = fields::seq::odd_even(seq);
    match odd_even {
        OddEvenMode::Sequential => map_mask,
        OddEvenMode::OddEven => map_mask & (ODD_EVEN_MASK << shift),
    }
}

// Where a store at an offset goes: chain-four clears the low two bits.
pub fn stored_at(seq: Sequencer, offset: usize) -> usize
    ensures { result ≡ stored_at seq offset }
{
    if fields::seq::chain_four(seq) {
        return offset & !0x03;
    }
    offset
}

// Where `gc_read_u8` reads: chain-four counts under sequential addressing alone.
pub fn gc_read_at(seq: Sequencer, offset: usize) -> usize
    ensures { result ≡ gc_read_at seq offset }
{
    let odd_even = fields::seq::odd_even(seq);
    match odd_even {
        OddEvenMode::OddEven => offset,
        OddEvenMode::Sequential => stored_at(seq, offset),
    }
}
