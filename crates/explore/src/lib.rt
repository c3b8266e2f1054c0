// Reaching every node of a system, breadth first.
#![tactic(auto)]

pub mod engine;
pub mod entry;
pub mod example;
pub mod machine;
pub mod path;
pub mod theorems;

pub use engine::explore;
pub use entry::{Entry, Traced};
pub use machine::Machine;
pub use path::{NoPath, path_back};
