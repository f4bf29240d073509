// What the crates above may call, and a host may not: functions that ask something of their caller, who has judged planes and offset.
ghost use Rattle.std.specs.Prelude.{◌≡◌, ◌<◌, ◌≤◌, nat_eq, length, slice_set, get_or};
ghost use Rattle.machine_types.specs.Slices.{SameSlices, SamePlanes};
ghost use Rattle.machine.specs.Memory.{seen, lent, behind, Shaped};
ghost use Rattle.machine.specs.Answers.{changes_of, changed_value};
ghost use Rattle.machine.specs.Deeds.{byte as byte_of_plane, laid, remade, changed_bits, changed_at};
ghost use Rattle.vram_planes.specs.Stores.{combines};

use crate::kind::PlaneStore;
use machine_types::inner::Bytes;
use machine_types::{Changed, Lent, LentToRead, LentToStore};
use vram_changes::inner::{changed_bits, in_plane};
use vram_pixels::inner::remake;

// A plane's byte.
pub fn byte(memory: &LentToRead, plane: usize, at: usize) -> u8
    requires { Shaped (seen memory.now) × ((at < length (seen memory.now).p0) × (plane ≤ 3)) }
    ensures { result ≡ byte_of_plane (seen memory.now) plane at }
{
    match plane {
        0 => memory.p0[at],
        1 => memory.p1[at],
        2 => memory.p2[at],
        _ => memory.p3[at],
    }
}

// The byte that a store puts down, of the one given and the one that stands there.
fn combined(kind: PlaneStore, x: u8, old: u8) -> u8
    ensures { result ≡ combines kind x old }
{
    match kind {
        PlaneStore::Set => x,
        PlaneStore::And => x & old,
        PlaneStore::Or => x | old,
    }
}

// A byte put down in a plane, and how many of its bits that changed.
fn put(bytes: &mut [u8], at: usize, kind: PlaneStore, x: u8) -> u8
    requires { at < length bytes.old }
    ensures down { bytes.new ≡ slice_set bytes.old at (combines kind x (get_or bytes.old at 0)) }
    ensures counted { result ≡ changed_bits (get_or bytes.old at 0) (combines kind x (get_or bytes.old at 0)) }
{
    let old = bytes[at];
    let new = combined(kind, x, old);
    bytes[at] = new;
    changed_bits(old, new)
}

// A byte laid into a plane, however the picture is lent, and how many of its bits that changed; the picture stays as it was, for `remake` to follow once after several planes.
#[tactic(auto, using(crate::proofs::Counts::put_down), unfolding(machine::specs::Deeds::laid, machine::specs::Deeds::changed_at))]
pub fn lay<Q: Bytes>(
    memory: &mut Lent<&mut [u8], Q>,
    plane: usize,
    at: usize,
    kind: PlaneStore,
    x: u8,
) -> u8
    requires { Shaped (behind (λ s. s.now) Q.bytes memory.old) × ((at < length memory.old.p0.now) × (plane ≤ 3)) }
    ensures same_slices { SamePlanes memory.old memory.new }
    ensures down { behind (λ s. s.now) Q.bytes memory.new
        ≡ laid at (λ q. nat_eq q plane) (λ q. combines kind x (byte_of_plane (behind (λ s. s.now) Q.bytes memory.old) q at)) (behind (λ s. s.now) Q.bytes memory.old) }
    ensures counted { result ≡ changed_at (behind (λ s. s.now) Q.bytes memory.old) (behind (λ s. s.now) Q.bytes memory.new) at plane }
{
    match plane {
        0 => put(memory.p0, at, kind, x),
        1 => put(memory.p1, at, kind, x),
        2 => put(memory.p2, at, kind, x),
        _ => put(memory.p3, at, kind, x),
    }
}

// A store into one plane, already judged: the byte, then its offset's eight pixels, whether the byte changed or not.

pub fn store(memory: &mut LentToStore, plane: usize, at: usize, kind: PlaneStore, x: u8) -> Changed
    requires { Shaped (lent memory.old) × ((at < length (lent memory.old).p0) × (plane ≤ 3)) }
    ensures same_slices { SameSlices memory.old memory.new }
    ensures stored { lent memory.new ≡ remade at (laid at (λ q. nat_eq q plane) (λ q. combines kind x (byte_of_plane (lent memory.old) q at)) (lent memory.old)) }
    ensures counted { changed_value result ≡ changes_of (changed_at (lent memory.old) (lent memory.new) at) }
{
    let number = lay(memory, plane, at, kind, x);
    remake(memory, at);
    in_plane(plane, number)
}
