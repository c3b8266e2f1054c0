// Rules in past-time temporal logic as monitors: a formula is a table of its subformulas, a code has
// their truths after the latest event as its bits, and one event is one pass over the table.
#![tactic(auto)]

pub mod compile;
pub mod fault;
pub mod formula;
pub mod node;
mod numbers;
mod reading;
mod rule;
mod spell;
mod spelling;
mod step;
mod suiting;
pub mod theorem;
pub mod watch;
pub mod word;

pub use fault::RuleFault;
pub use formula::Formula;
pub use node::{Node, Table};
pub use word::Word;
