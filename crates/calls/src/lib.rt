// Calls on a trace: each by itself, and lists of any of them performed in order. What is proved of
// every list speaks of the consistent runs of the events noted ahead of each call.
#![tactic(auto)]

pub mod call;
pub mod every;
pub mod laws;
pub(crate) mod one;
pub mod replaying;
pub mod single;

pub use call::Call;
pub use every::perform;
pub use replaying::replay;
pub use single::{judge, map, note};
