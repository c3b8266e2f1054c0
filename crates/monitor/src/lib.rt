// Monitors: what watches the events of a run by a code of what it has seen, and says which codes are
// bad. A run is violating if its code was bad at any time.
#![tactic(auto)]

pub mod either;
pub mod lent;
pub mod monitor;
pub mod runs;

pub use either::Either;
pub use monitor::Monitor;
pub use runs::{Verdict, run};
