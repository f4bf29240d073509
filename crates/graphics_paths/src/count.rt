// The seven counters: accepted accesses by mode, and those that are turned away. Each goes back to 0 after 4,294,967,295.
ghost use Rattle.std.specs.Prelude.{◌≡◌};
ghost use Rattle.machine.specs.Answers.{refusal_number};
ghost use Rattle.machine.specs.Calls.{counted, read_counter, write_counter, refused_counter, refusal_counter};

use machine_types::{GraphicsControllerStats, ReadMode, Refusal, WriteMode};

#[tactic(auto, unfolding(machine::specs::Calls::counted))]
pub fn counted_read(mode: ReadMode, stats: GraphicsControllerStats) -> GraphicsControllerStats
    ensures { result ≡ counted (read_counter mode) stats }
{
    match mode {
        ReadMode::ReadSelectedPlane => GraphicsControllerStats {
            mode_0_reads: stats.mode_0_reads.wrapping_add(1),
            ..stats
        },
        ReadMode::ReadComparedPlanes => GraphicsControllerStats {
            mode_1_reads: stats.mode_1_reads.wrapping_add(1),
            ..stats
        },
    }
}

#[tactic(auto, unfolding(machine::specs::Calls::counted))]
pub fn counted_write(mode: WriteMode, stats: GraphicsControllerStats) -> GraphicsControllerStats
    ensures { result ≡ counted (write_counter mode) stats }
{
    match mode {
        WriteMode::Mode0 => GraphicsControllerStats {
            mode_0_writes: stats.mode_0_writes.wrapping_add(1),
            ..stats
        },
        WriteMode::Mode1 => GraphicsControllerStats {
            mode_1_writes: stats.mode_1_writes.wrapping_add(1),
            ..stats
        },
        WriteMode::Mode2 => GraphicsControllerStats {
            mode_2_writes: stats.mode_2_writes.wrapping_add(1),
            ..stats
        },
        WriteMode::Mode3 => GraphicsControllerStats {
            mode_3_writes: stats.mode_3_writes.wrapping_add(1),
            ..stats
        },
    }
}

// A refused read or write: 2 and 3 raise the seventh, no other refusal raises any.
#[tactic(auto, unfolding(machine::specs::Calls::counted))]
pub fn counted_refusal(refusal: Refusal, stats: GraphicsControllerStats) -> GraphicsControllerStats
    ensures { result ≡ counted (refusal_counter (refusal_number refusal) refused_counter) stats }
{
    match refusal {
        Refusal::Window | Refusal::Offset => GraphicsControllerStats {
            refused_accesses: stats.refused_accesses.wrapping_add(1),
            ..stats
        },
        _ => stats,
    }
}
