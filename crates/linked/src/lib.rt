// What programs in other languages link: the predictor as one C function.
#![tactic(auto)]

pub mod answer;
pub mod predicting;

pub use answer::{Answer, Outcome};
pub use predicting::linked_predict;

#[cfg(test)]
mod tests;
