// An answer with what a call leaves of a host's record, the whole or what moved, and refusal 6 with the record as it was handed in.
ghost use Rattle.std.specs.Prelude.{◌≡◌};
ghost use Rattle.machine.specs.Answers.{said, one, outcome, said_by};
ghost use Rattle.machine.specs.Step.{lifted};
ghost use Rattle.host_records.specs.Records.{controller_record_of, sequencer_record_of, left_to};
ghost use Rattle.answers.specs.Answers.{answer_said};

use crate::counter::Counter;
use crate::record::{ControllerRecord, SequencerRecord};
use answers::{Answer, AsByte, Stored, refused, unknown};
use machine_types::{After, GraphicsController, GraphicsRegister, Refusal, Sequencer};

// An answer and the sequencer's record as it is left.
#[repr(C)]
#[derive(Clone, Copy)]
pub struct SequencerAnswer {
    pub answer: Answer,
    pub seq: SequencerRecord,
}

// A read's answer, the latches as they are left, and the counter that goes up.
#[derive(Clone, Copy)]
pub struct ReadAnswer {
    pub answer: Answer,
    pub latches: [u8; 4],
    pub counter: Option<Counter>,
}

// A write's answer and the counter that goes up.
#[derive(Clone, Copy)]
pub struct WriteAnswer {
    pub answer: Stored,
    pub counter: Option<Counter>,
}

// A data write's answer, and the register that is stored with its new value.
#[derive(Clone, Copy)]
pub struct DataAnswer {
    pub answer: Answer,
    pub stored: Option<(GraphicsRegister, u8)>,
}

pub fn unknown_sequencer(seq: SequencerRecord) -> SequencerAnswer
    ensures { outcome (answer_said result.answer) result.seq ≡ outcome (said 6 (one 0)) seq }
{
    SequencerAnswer {
        answer: unknown(),
        seq,
    }
}

pub fn unknown_controller(gc: ControllerRecord) -> After<ControllerRecord, Answer>
    ensures { outcome (answer_said result.answer) result.next ≡ outcome (said 6 (one 0)) gc }
{
    After {
        answer: unknown(),
        next: gc,
    }
}

// What the machine left where it is done; the host's record as it was handed in where it is refused.
pub fn of_sequencer_left<T: AsByte>(
    seq: SequencerRecord,
    left: After<Sequencer, Result<T, Refusal>>,
) -> SequencerAnswer
    ensures { outcome (answer_said result.answer) result.seq ≡ left_to sequencer_record_of (outcome (said_by (λ x. one (T.byte x)) (one 0) left.answer) left.next) seq }
{
    match left.answer {
        Ok(_) => SequencerAnswer {
            answer: left.answer.into(),
            seq: left.next.into(),
        },
        Err(refusal) => SequencerAnswer {
            answer: refused(refusal),
            seq,
        },
    }
}

// The host's own byte stays beside what the machine left.
pub fn of_graphics_left<T: AsByte>(
    spare: u8,
    left: After<GraphicsController, Result<T, Refusal>>,
) -> After<ControllerRecord, Answer>
    ensures { outcome (answer_said result.answer) result.next ≡ lifted (controller_record_of spare) (outcome (said_by (λ x. one (T.byte x)) (one 0) left.answer) left.next) }
{
    After {
        answer: left.answer.into(),
        next: ControllerRecord::of(left.next, spare),
    }
}
