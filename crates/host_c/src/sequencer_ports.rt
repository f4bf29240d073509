// The sequencer's ports, its clock and the pending mark. The two port writes update the record where it stands; the others take it by value.
ghost use Rattle.std.specs.Prelude.{◌≡◌};
ghost use Rattle.machine.specs.Answers.{one, outcome};
ghost use Rattle.machine_types.specs.Start.{fresh_seq};
ghost use Rattle.machine.specs.Calls.{seq_reset, seq_clock, seq_set_clock_change_pending, seq_poll_clock_change, seq_read_address, seq_read_data, seq_write_address, seq_write_data};
ghost use Rattle.machine.specs.Step.{lifted, sequencer_step};
ghost use Rattle.answers.specs.Answers.{answer_said};
ghost use Rattle.answers.specs.Wide.{clock_answer_said};
ghost use Rattle.host_records.specs.Records.{sequencer_of, sequencer_record_of};
ghost use Rattle.host_calls.specs.Hosted.{sequencer_hosted};

use answers::{Answer, Clock};
use host_records::left::SequencerAnswer;
use host_records::record::SequencerRecord;

// The start record.
#[unsafe(no_mangle)]
pub extern "C" fn iddesmar_seq_new() -> SequencerRecord
    ensures { result ≡ sequencer_record_of fresh_seq }
{
    host::sequencer_ports::iddesmar_seq_new()
}

// Any record is taken.
#[unsafe(no_mangle)]
pub extern "C" fn iddesmar_seq_reset(seq: SequencerRecord) -> SequencerAnswer
    ensures { outcome (answer_said result.answer) result.seq ≡ lifted sequencer_record_of (sequencer_step (sequencer_of seq) seq_reset) }
{
    host::sequencer_ports::iddesmar_seq_reset(seq)
}

#[unsafe(no_mangle)]
pub extern "C" fn iddesmar_seq_clock(seq: SequencerRecord) -> Clock
    ensures { clock_answer_said result ≡ (sequencer_hosted seq (one 0) seq_clock).answer }
{
    host::sequencer_ports::iddesmar_seq_clock(seq)
}

#[unsafe(no_mangle)]
pub extern "C" fn iddesmar_seq_set_clock_change_pending(seq: SequencerRecord) -> SequencerAnswer
    ensures { outcome (answer_said result.answer) result.seq ≡ sequencer_hosted seq (one 0) seq_set_clock_change_pending }
{
    host::sequencer_ports::iddesmar_seq_set_clock_change_pending(seq)
}

#[unsafe(no_mangle)]
pub extern "C" fn iddesmar_seq_poll_clock_change(seq: SequencerRecord) -> SequencerAnswer
    ensures { outcome (answer_said result.answer) result.seq ≡ sequencer_hosted seq (one 0) seq_poll_clock_change }
{
    host::sequencer_ports::iddesmar_seq_poll_clock_change(seq)
}

#[unsafe(no_mangle)]
pub extern "C" fn iddesmar_seq_read_address(seq: SequencerRecord) -> Answer
    ensures { answer_said result ≡ (sequencer_hosted seq (one 0) seq_read_address).answer }
{
    host::sequencer_ports::iddesmar_seq_read_address(seq)
}

#[unsafe(no_mangle)]
pub extern "C" fn iddesmar_seq_write_address_2(seq: &mut SequencerRecord, byte: u8) -> Answer
    ensures { outcome (answer_said result) seq.new ≡ sequencer_hosted seq.old (one 0) (seq_write_address byte) }
{
    host::sequencer_ports::iddesmar_seq_write_address_2(seq, byte)
}

#[unsafe(no_mangle)]
pub extern "C" fn iddesmar_seq_read_data(seq: SequencerRecord) -> Answer
    ensures { answer_said result ≡ (sequencer_hosted seq (one 0) seq_read_data).answer }
{
    host::sequencer_ports::iddesmar_seq_read_data(seq)
}

#[unsafe(no_mangle)]
pub extern "C" fn iddesmar_seq_write_data_2(seq: &mut SequencerRecord, byte: u8) -> Answer
    ensures { outcome (answer_said result) seq.new ≡ sequencer_hosted seq.old (one 0) (seq_write_data byte) }
{
    host::sequencer_ports::iddesmar_seq_write_data_2(seq, byte)
}
