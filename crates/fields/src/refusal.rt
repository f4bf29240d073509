// Refusals by the document's numbers.
ghost use Rattle.std.specs.Prelude.{◌≡◌};
ghost use Rattle.machine.specs.Answers.{refusal_number};

use machine_types::Refusal;

// A refusal's number in the table of refusals.
pub fn refusal_number(refusal: Refusal) -> u8
    ensures { result ≡ refusal_number refusal }
{
    refusal as u8
}
