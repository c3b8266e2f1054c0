// Actions and events.
ghost use Rattle.std.specs.Prelude.{◌≡◌};
ghost use Rattle.events.specs.Events.{action_of, event_at};

// What a thread does: an event but for its place. The subject is a label, a variable or a lock, as
// the kind says.
// Stays a number: the kind, since a recorded one that is no kind's has to be answered by a refusal.
#[derive(Clone, Copy, Debug, PartialEq, Eq)]
pub struct Action {
    pub thread: u8,
    pub kind: u8,
    pub subject: u8,
    pub value: i32,
}

// An action that a trace has accepted. The place is its number among its thread's accepted events,
// from 1.
// Stays flat, and holds no Action: then the fields of both are read by the same short names.
#[derive(Clone, Copy, Debug, PartialEq, Eq)]
pub struct Event {
    pub thread: u8,
    pub place: u8,
    // Stays a number: a row of events and a row of a map give the kind so, and callers lend and read
    // those rows.
    pub kind: u8,
    pub subject: u8,
    pub value: i32,
}

impl Action {
    // The event that the action is at a place of its thread.
    pub fn at(self, place: u8) -> Event
        ensures { result ≡ event_at place self }
    {
        let Action {
            thread,
            kind,
            subject,
            value,
        } = self;
        Event {
            thread,
            place,
            kind,
            subject,
            value,
        }
    }
}

impl Event {
    // A row that stands for no event, with which tables are made.
    pub const BLANK: Event = Event {
        thread: 0,
        place: 0,
        kind: 0,
        subject: 0,
        value: 0,
    };

    // What the event's thread did.
    // Stays a method, and no From: it is the way back from `at`, which takes a place besides.
    pub fn action(&self) -> Action
        ensures { result ≡ action_of self.now }
    {
        Action {
            thread: self.thread,
            kind: self.kind,
            subject: self.subject,
            value: self.value,
        }
    }
}
