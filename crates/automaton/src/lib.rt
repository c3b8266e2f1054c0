// Nondeterministic automata that watch a run. A code's bit s stands for state s: the code is the set
// of the states that the automaton can be in.
#![tactic(auto)]

pub mod arc;
pub mod automaton;
pub mod comparison;
pub mod fault;
pub mod make;
pub mod moves;
pub mod paths;
pub mod watch;

pub use arc::Arc;
pub use automaton::Automaton;
pub use comparison::{Comparison, NoComparison};
pub use fault::AutomatonFault;
