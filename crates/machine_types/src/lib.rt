// The types of the port: places, answers, the two records with their start states. What every call does to them is said in `machine`.
#![tactic(auto)]

mod answer;
mod gc;
pub mod inner;
mod memory;
mod place;
mod seq;
mod shape;

pub use answer::{After, Changed, Part, Refusal};
pub use gc::{
    GraphicsController, GraphicsControllerStats, GraphicsRegister, GraphicsRegisters,
    LogicFunction, MemoryMap, OddEvenModeComplement, ReadMode, ShiftMode, WriteMode,
};
pub use memory::{Lent, LentToRead, LentToRemake, LentToStore};
pub use place::{PixelPlace, PlaneOffset};
pub use seq::{OddEvenMode, Sequencer, SequencerRegister};
pub use shape::Shape;
