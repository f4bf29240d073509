// From an address to a plane offset: the windows, the memory maps, chain odd/even and the page bit.
ghost use Rattle.std.specs.Prelude.{◌≡◌, ◌&&◌, false, leb, ltb};
ghost use Rattle.bits.specs.Bit.{bit_of};
ghost use Rattle.machine.specs.Answers.{two, outcome, answered, mapped_said};
ghost use Rattle.machine.specs.Address.{in_window, a0};
ghost use Rattle.machine.specs.Calls.{refuse};
ghost use Rattle.refusals_access.specs.Miscellaneous.{map_of, chain_of, offset_of, leads_to};

use machine_types::{MemoryMap, PlaneOffset, Refusal};

// Whether an address is in a window, both its ends included.
fn within(first: usize, last: usize, address: usize) -> bool
    ensures { result ≡ (leb first address && leb address last) }
{
    first <= address && address <= last
}

// 128K: under chain odd/even bit 0 becomes bit 16. The page bit plays no part.
#[tactic(auto, using(crate::proofs::Windows::low_16, crate::proofs::Windows::bit_16_replaced), unfolding(crate::specs::Miscellaneous::leads_to, machine::specs::Address::in_window, machine::specs::Address::mapped))]
fn mapped_128k(chain: bool, address: usize) -> Option<usize>
    ensures { result ≡ leads_to MemoryMap.A0000_128k chain address false }
{
    if !within(
        MemoryMap::WINDOW_128K_FIRST,
        MemoryMap::WINDOW_128K_LAST,
        address,
    ) {
        return None;
    }
    if chain {
        return Some((address & 0xFFFE) | ((address >> 16) & 1));
    }
    Some(address & 0xFFFF)
}

// 64K: under chain odd/even bit 0 becomes the page bit.
#[tactic(auto, using(crate::proofs::Windows::page_replaced, crate::proofs::Windows::from_first), unfolding(crate::specs::Miscellaneous::leads_to, machine::specs::Address::in_window, machine::specs::Address::mapped))]
fn mapped_64k(chain: bool, address: usize, page: bool) -> Option<usize>
    ensures { result ≡ leads_to MemoryMap.A0000_64K chain address page }
{
    if !within(
        MemoryMap::WINDOW_64K_FIRST,
        MemoryMap::WINDOW_64K_LAST,
        address,
    ) {
        return None;
    }
    if chain {
        return Some((address & 0xFFFE) | (page as usize));
    }
    Some(address - MemoryMap::WINDOW_64K_FIRST)
}

// B8000: chain odd/even and the page bit play no part.
#[tactic(auto, using(crate::proofs::Windows::from_first), unfolding(crate::specs::Miscellaneous::leads_to, machine::specs::Address::in_window, machine::specs::Address::mapped))]
fn mapped_b8000(address: usize) -> Option<usize>
    ensures { result ≡ leads_to MemoryMap.B8000_32K false address false }
{
    if !within(
        MemoryMap::WINDOW_B8000_FIRST,
        MemoryMap::WINDOW_B8000_LAST,
        address,
    ) {
        return None;
    }
    Some(address - MemoryMap::WINDOW_B8000_FIRST)
}

// By Miscellaneous, bits 2-3 for the map and bit 1 for chain odd/even: tests of its bits cost less than a match on the map.
#[tactic(auto, using(crate::proofs::Windows::chain_is, crate::proofs::Windows::map_128k, crate::proofs::Windows::map_64k, crate::proofs::Windows::map_b0000, crate::proofs::Windows::map_b8000), unfolding(crate::specs::Miscellaneous::leads_to, machine::specs::Address::in_window, machine::specs::Address::mapped))]
fn mapped(miscellaneous: u8, address: usize, page: bool) -> Option<usize>
    ensures { result ≡ leads_to (map_of miscellaneous) (chain_of miscellaneous) address page }
{
    let chain = miscellaneous & 2 != 0;
    let at_a0000 = miscellaneous & 8 == 0;
    if at_a0000 {
        let whole = miscellaneous & 4 == 0;
        if whole {
            return mapped_128k(chain, address);
        }
        return mapped_64k(chain, address, page);
    }
    // the map B0000 has no window
    let no_window = miscellaneous & 4 == 0;
    if no_window {
        return None;
    }
    mapped_b8000(address)
}

// Refusals 2, 3 by Miscellaneous and n, or the offset and a0, so that no address is mapped twice.
#[tactic(auto, using(crate::proofs::Windows::is_outside, crate::proofs::Windows::is_inside, fields::proofs::Bit0::bit0_is))]
pub fn judge_window(
    miscellaneous: u8,
    n: usize,
    address: usize,
    page: bool,
) -> Result<(PlaneOffset, bool), Refusal>
    ensures { outcome (mapped_said result) address
        ≡ answered (refuse (in_window (map_of miscellaneous) address) 2 (refuse (ltb (offset_of miscellaneous address page) n) 3 0))
        (two (offset_of miscellaneous address page) (bit_of (a0 address))) address address }
{
    let at = mapped(miscellaneous, address, page).ok_or(Refusal::Window)?;
    if at >= n {
        return Err(Refusal::Offset);
    }
    Ok((PlaneOffset(at), address & 1 == 1))
}
