// A trace: what threads do with variables and locks, noted event by event over rows that the caller
// lends.
#![tactic(auto)]

ghost use Rattle.std.specs.Prelude.{◌≡◌, true, length};
ghost use Rattle.events.specs.Accepted.{accepted};
ghost use Rattle.rows.specs.Listed.{listed};
ghost use Rattle.trace.specs.Fields.{opening_in, Valued, Locked, Counted};

pub mod admitted;
pub mod locks;
pub mod noting;
pub mod opening;
pub mod place;
pub mod reading;
pub mod setting;
pub mod state;
pub mod steps;

use events::Event;
pub use place::Place;
use rows::Rows;
pub use state::State;

// The state is what the opening and the noted events make it, and each event was accepted after
// those ahead of it.
// Stays two things in clauses, `opening_of` and `noted_of`, and no record of both: the definitions of
// events take an opening and a list, also where the list is no trace's.
#[derive(Drop)]
pub struct Trace<'a> {
    pub(crate) state: State,
    pub(crate) rows: Rows<'a, Event>,
    ghost sizes: { (length state.values ≡ 32) × (length state.locks ≡ 16) × (length state.counts ≡ 8) },
    ghost values: { Valued (opening_in state rows) (listed rows) state.values },
    ghost locks: { Locked (listed rows) state.locks },
    ghost counts: { Counted (listed rows) state.counts },
    ghost noted: { accepted (opening_in state rows) (listed rows) ≡ true },
}
