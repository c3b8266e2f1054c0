// Why an opening or an event is refused, and the numbers by which users know the reasons.
ghost use Rattle.std.specs.Prelude.{◌≡◌};
ghost use Rattle.events.specs.Numbers.{open_number, note_number};
ghost use Rattle.events.specs.declared.refusal.Refusal.TheVariants.{Kind};

use crate::kind::NoKind;

// Why no trace is opened.
#[derive(Clone, Copy, Debug, PartialEq, Eq)]
pub enum OpenRefusal {
    // the thread count is 0 or over 8
    Threads = 1,
    // more than 32 starting values
    Variables = 2,
    // more than 1,024 event rows
    Rows = 3,
}

// Why an event is not noted.
#[derive(Clone, Copy, Debug, PartialEq, Eq)]
pub enum Refusal {
    // the trace is void
    Void = 9,
    // the thread is not below the thread count
    Thread = 11,
    // the kind is over 4
    Kind = 12,
    // the label, variable or lock is outside its range
    Subject = 13,
    // the value of a lock's event is not 0
    LockValue = 14,
    // the value read is not the variable's latest
    ReadValue = 15,
    // the lock to be acquired is held
    Held = 16,
    // the lock to be released is not held by this thread
    NotHolder = 17,
    // the thread has 255 events
    ThreadFull = 18,
    // the event rows are used up
    RowsFull = 19,
}

// Stays a method, as at every fault: each is asked for its number in one way, also those that hold
// a place or a cause and so are more than their number.
impl OpenRefusal {
    pub fn number(self) -> u8
        ensures { result ≡ open_number self }
    {
        self as u8
    }
}

// Stays a method, as at every fault: each is asked for its number in one way, also those that hold
// a place or a cause and so are more than their number.
impl Refusal {
    pub fn number(self) -> u8
        ensures { result ≡ note_number self }
    {
        self as u8
    }
}

// An event whose kind is no kind's number is refused for its kind.
impl From<NoKind> for Refusal {
    ghost from_gives = { λ _ why. why ≡ Kind };

    fn from(_none: NoKind) -> Refusal {
        Refusal::Kind
    }
}
