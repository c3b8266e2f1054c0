// Replays: the events of a noted list taken thread by thread, in the order that a list of thread
// numbers gives, under a monitor.
#![tactic(auto)]

pub mod refusal;
pub mod steps;
pub mod theory;

pub use refusal::ReplayRefusal;
pub use steps::replay;
