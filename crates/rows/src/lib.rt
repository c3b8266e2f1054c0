// Tables whose rows the caller lends: a list that adds at its end, and the first row with a key.
#![tactic(auto)]

pub mod keyed;
pub mod list;
pub mod reading;

pub use keyed::{Keyed, find_in};
pub use list::{Full, Rows};
