// The map of a trace: a row for each noted event, by thread and then by place.
#![tactic(auto)]

mod clocks;
mod latest;
mod placed;
mod places;
pub mod refusal;
pub mod writing;

pub use refusal::MapRefusal;
pub use writing::map;
