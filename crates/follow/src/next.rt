// What comes next of a thread, by look-ups.
ghost use Rattle.std.specs.Prelude.{◌≡◌, ℕ, ◌<◌, ◌≤◌, ◌⊎◌, List, Ok, Err, Decides, slice_index};
ghost use Rattle.events.specs.declared.event.Event.{Event as AnEvent};
ghost use Rattle.order.specs.Reached.{cut_of};
ghost use Rattle.follow.specs.declared.no_next.NoNext.TheVariants.{Done};
ghost use Rattle.follow.specs.Balance.{Reached};
ghost use Rattle.follow.specs.Answers.{Answers};
ghost use Rattle.follow.specs.Made.{MadeOf};
ghost use Rattle.follow.specs.Looking.{HasSource, unbalanced, BlockedBy, next_in};

use crate::no_next::NoNext;
use crate::object::Object;
use crate::role::{Role, role_of};
use crate::tables::{Tables, cell, slot};
use events::Event;

// Whether a source is in the cut, or is none.
fn supplied(cut: [u8; 8], source: Option<(u8, u8)>) -> bool
    ensures { Decides result (HasSource cut source) }
{
    match source {
        Some((thread, place)) if thread < 8 => place <= cut[thread as usize],
        _ => true,
    }
}

impl Tables {
    // Whether a read or a release of the object waits: more are led into the cut than taken. Stays
    // with the clause `small`: of an array's numbers a proof knows the bound only where they are read.
    fn waits(&self, cut: [u8; 8], object: Object) -> bool
        ensures sums { result ≡ unbalanced self.now cut object.number }
        ensures small { (t : ℕ) → t < 8 → slice_index cut t < 256 }
    {
        let mut led = self.groups[object.number].starting as u32;
        let mut taken = 0u32;
        for (t, &done) in cut.iter().enumerate() {
            let tally = &self.tallies[cell(t as u8, done, object)];
            led += tally.led as u32;
            taken += tally.taken as u32;
        }
        led != taken
    }

    // Whether an event finds another group of its object open: only a write or an acquire does.
    fn blocked(&self, cut: [u8; 8], e: Event) -> bool
        ensures { BlockedBy self.now cut e result }
    {
        match role_of(e) {
            Role::Lead(object) => self.waits(cut, object),
            Role::Take(_) | Role::Apart => false,
        }
    }

    // The next event of the thread, where it may follow the cut, or why there is none.
    pub fn next(&self, cut: [u8; 8], thread: u8) -> Result<Event, NoNext>
        ensures answers { (es : List AnEvent) → MadeOf es self.now → Reached es (cut_of cut) → Answers es (cut_of cut) thread result }
        ensures beyond { 8 ≤ thread → result ≡ Err Done }
        ensures value { result ≡ next_in self.now cut thread }
        ensures more { (e : AnEvent) → result ≡ Ok e → (thread < 8) × (slice_index cut thread < 255) }
    {
        if thread >= 8 {
            return Err(NoNext::Done);
        }
        let done = cut[thread as usize];
        if done >= self.counts[thread as usize] {
            return Err(NoNext::Done);
        }
        let standing = &self.standings[slot(thread, done + 1)];
        if !supplied(cut, standing.source) {
            return Err(NoNext::Missing);
        }
        if self.blocked(cut, standing.event) {
            return Err(NoNext::Blocked);
        }
        Ok(standing.event)
    }
}
