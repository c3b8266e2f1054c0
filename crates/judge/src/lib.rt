// The judgement of a trace under a monitor: whether some consistent run of its events violates, and
// the least such run. It explores the pairs of a cut and a code, so that no run is left out and none
// is tried twice.
#![tactic(auto)]

mod decide;
pub mod judging;
pub mod laws;
mod machine;
pub mod refusal;
pub mod row;
pub mod verdict;

pub use judging::judge;
pub use refusal::JudgeRefusal;
pub use row::SearchRow;
pub use verdict::{Judgement, Verdict};
