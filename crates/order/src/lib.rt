// The order of a noted list: what feeds what and what is before what, groups, consistent runs, cuts,
// vector clocks and maps.
#![tactic(auto)]

pub mod laws;
pub mod row;

pub use row::Row;
