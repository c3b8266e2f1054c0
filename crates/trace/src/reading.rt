// What a trace was opened with, and what it has noted.
ghost use Rattle.std.specs.Prelude.{◌≡◌};
ghost use Rattle.events.specs.Noting.{Noted, opened_or_why};
ghost use Rattle.trace.specs.Meaning.{opening_of, noted_of, void_number};
ghost use Rattle.trace.specs.Places.{event_by, StandsAt};

use crate::Trace;
use crate::place::Place;
use events::{Event, OpenRefusal, Starts};

impl<'a> Trace<'a> {
    // The starting values of the variables, or why the trace is void.
    pub fn opened(&self) -> Result<Starts, OpenRefusal>
        ensures { result ≡ opened_or_why (opening_of self.now) }
    {
        self.state.setting.map(|setting| setting.starts)
    }

    // Why the trace is void, if it is.
    // Stays an Option: a user who asks for the reason gets it; who needs a trace that is not void
    // asks `opened`.
    pub fn void(&self) -> Option<OpenRefusal>
        ensures { result ≡ (opening_of self.now).void }
    {
        self.state.setting.err()
    }

    // The number of that reason, or 0.
    // Stays a number: users ask for the reason by a call that answers numbers.
    pub fn number(&self) -> u8
        ensures { result ≡ void_number (opening_of self.now).void }
    {
        self.void().map_or(0, |why| why.number())
    }

    // The number of threads.
    // Stays a plain number: a void trace has no thread, and its number of threads is 0.
    pub fn threads(&self) -> u8
        ensures { result ≡ (opening_of self.now).threads }
    {
        self.state.setting.map_or(0, |setting| setting.threads)
    }

    // The starting values of the variables: a void trace has none.
    pub fn starts(&self) -> &[i32]
        ensures { result.now ≡ (opening_of self.now).starts }
    {
        self.state
            .setting
            .as_ref()
            .map_or(&[], |setting| setting.starts.as_slice())
    }

    // The noted events, in their order: each was accepted after those ahead of it.
    pub fn events(&self) -> &[Event]
        ensures value { result.now ≡ noted_of self.now }
        ensures noted { Noted (opening_of self.now) (noted_of self.now) }
    {
        self.rows.as_slice()
    }

    // The event at a place of a thread.
    pub fn event(&self, thread: u8, place: u8) -> Option<Event>
        ensures value { result ≡ event_by (record { thread = thread; place = place }) (noted_of self.now) }
        ensures stands { StandsAt (record { thread = thread; place = place }) (noted_of self.now) result }
    {
        let i = self.rows.find(Place { thread, place })?;
        self.rows.at(i)
    }
}
