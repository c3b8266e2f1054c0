// Which event may follow a cut, decided from tables that are made once for a noted list.
#![tactic(auto)]

mod fill;
mod next;
pub mod no_next;
pub(crate) mod object;
pub(crate) mod role;
pub mod tables;
pub mod theory;

pub use no_next::NoNext;
pub use tables::Tables;
