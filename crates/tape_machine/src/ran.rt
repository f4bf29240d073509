// What a whole run answers.
use machine_types::{GraphicsController, Refusal, Sequencer};

// Whether the lines had room, how many bytes were written, and both records as they are left.
#[derive(Clone, Copy)]
pub struct Ran {
    pub answer: Result<(), Refusal>,
    pub written: usize,
    pub gc: GraphicsController,
    pub seq: Sequencer,
}
