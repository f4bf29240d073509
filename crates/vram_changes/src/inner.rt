// What the crates above may call, and a host may not: functions that ask something of their caller, who has judged the plane.
ghost use Rattle.std.specs.Prelude.{◌≡◌, ◌≤◌, nat_eq};
ghost use Rattle.bits.specs.Bit.{pick};
ghost use Rattle.machine.specs.Answers.{changes_of, changed_value};
ghost use Rattle.machine.specs.Deeds.{changed_bits};
ghost use Rattle.vram_changes.specs.Numbers.{none_changed};

use machine_types::Changed;

// How many of a byte's eight bits changed.
#[tactic(auto, using(crate::proofs::Ones::ones_changed))]
pub fn changed_bits(old: u8, new: u8) -> u8
    ensures { result ≡ changed_bits old new }
{
    u8::count_ones(old ^ new) as u8
}

// No plane changed.
pub fn unchanged() -> Changed
    ensures { result ≡ none_changed }
{
    Changed {
        p0: 0,
        p1: 0,
        p2: 0,
        p3: 0,
    }
}

// One plane changed, by so many bits.
pub fn in_plane(plane: usize, number: u8) -> Changed
    requires { plane ≤ 3 }
    ensures { changed_value result ≡ changes_of (λ q. pick (nat_eq q plane) number 0) }
{
    let mut changed = unchanged();
    match plane {
        0 => changed.p0 = number,
        1 => changed.p1 = number,
        2 => changed.p2 = number,
        _ => changed.p3 = number,
    }
    changed
}
