// The system that a prediction explores: pairs of a cut and a monitor's code. Its paths to the full
// cut are the consistent runs of a noted list, each with its code, so what a listing of the pairs
// says is said of every run.
#![tactic(auto)]

pub mod laws;
pub mod pair;

pub use pair::Pair;
