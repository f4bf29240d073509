// The sequencer's ports, its clock and the pending mark. The two port writes update the record where it stands; the others take it by value.
#![tactic(auto, unfolding(host_calls::specs::Hosted::sequencer_hosted))]

ghost use Rattle.std.specs.Prelude.{◌≡◌};
ghost use Rattle.machine.specs.Answers.{one, outcome};
ghost use Rattle.machine_types.specs.Start.{fresh_seq};
ghost use Rattle.machine.specs.Calls.{seq_reset, seq_clock, seq_set_clock_change_pending, seq_poll_clock_change, seq_read_address, seq_read_data, seq_write_address, seq_write_data};
ghost use Rattle.machine.specs.Step.{lifted, sequencer_step};
ghost use Rattle.answers.specs.Answers.{answer_said};
ghost use Rattle.answers.specs.Wide.{clock_answer_said};
ghost use Rattle.host_records.specs.Records.{sequencer_of, sequencer_record_of};
ghost use Rattle.host_calls.specs.Hosted.{sequencer_hosted};

use answers::{Answer, Clock, done, unknown};
use host_calls::{sequencer_address_of, sequencer_data_of};
use host_records::left::{SequencerAnswer, of_sequencer_left, unknown_sequencer};
use host_records::record::SequencerRecord;
use machine_types::{Refusal, Sequencer};

// The start record.
pub fn iddesmar_seq_new() -> SequencerRecord
    ensures { result ≡ sequencer_record_of fresh_seq }
{
    Sequencer::new().into()
}

// Any record is taken.
pub fn iddesmar_seq_reset(seq: SequencerRecord) -> SequencerAnswer
    ensures { outcome (answer_said result.answer) result.seq ≡ lifted sequencer_record_of (sequencer_step (sequencer_of seq) seq_reset) }
{
    SequencerAnswer {
        answer: done(),
        seq: sequencer::reset(seq.into()).into(),
    }
}

pub fn iddesmar_seq_clock(seq: SequencerRecord) -> Clock
    ensures { clock_answer_said result ≡ (sequencer_hosted seq (one 0) seq_clock).answer }
{
    let Ok(sequencer) = seq.meant() else {
        return Clock::from(Err(Refusal::State));
    };
    sequencer::clock(sequencer).into()
}

pub fn iddesmar_seq_set_clock_change_pending(seq: SequencerRecord) -> SequencerAnswer
    ensures { outcome (answer_said result.answer) result.seq ≡ sequencer_hosted seq (one 0) seq_set_clock_change_pending }
{
    let Ok(sequencer) = seq.meant() else {
        return unknown_sequencer(seq);
    };
    of_sequencer_left(seq, sequencer::set_clock_change_pending(sequencer))
}

pub fn iddesmar_seq_poll_clock_change(seq: SequencerRecord) -> SequencerAnswer
    ensures { outcome (answer_said result.answer) result.seq ≡ sequencer_hosted seq (one 0) seq_poll_clock_change }
{
    let Ok(sequencer) = seq.meant() else {
        return unknown_sequencer(seq);
    };
    of_sequencer_left(seq, sequencer::poll_clock_change(sequencer))
}

pub fn iddesmar_seq_read_address(seq: SequencerRecord) -> Answer
    ensures { answer_said result ≡ (sequencer_hosted seq (one 0) seq_read_address).answer }
{
    let Ok(sequencer) = seq.meant() else {
        return unknown();
    };
    sequencer::read_address(sequencer).into()
}

pub fn iddesmar_seq_write_address_2(seq: &mut SequencerRecord, byte: u8) -> Answer
    ensures { outcome (answer_said result) seq.new ≡ sequencer_hosted seq.old (one 0) (seq_write_address byte) }
{
    let left = sequencer_address_of(*seq, byte);
    *seq = left.seq;
    left.answer
}

pub fn iddesmar_seq_read_data(seq: SequencerRecord) -> Answer
    ensures { answer_said result ≡ (sequencer_hosted seq (one 0) seq_read_data).answer }
{
    let Ok(sequencer) = seq.meant() else {
        return unknown();
    };
    sequencer::read_data(sequencer).into()
}

pub fn iddesmar_seq_write_data_2(seq: &mut SequencerRecord, byte: u8) -> Answer
    ensures { outcome (answer_said result) seq.new ≡ sequencer_hosted seq.old (one 0) (seq_write_data byte) }
{
    let left = sequencer_data_of(*seq, byte);
    *seq = left.seq;
    left.answer
}
