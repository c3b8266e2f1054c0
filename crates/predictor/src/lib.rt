// From the text of a recording to what the predictor says of it: the layers joined, and what is
// printed of their answers.
#![tactic(auto)]

pub mod fault;
mod judging;
mod noting;
pub mod predicting;

pub use fault::{Fault, RecordFault, Stop};
pub use predicting::{Prediction, predict};
