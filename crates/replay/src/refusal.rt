// Why a list of thread numbers is not replayed, and the numbers by which users know the reasons.
ghost use Rattle.std.specs.Prelude.{◌≡◌};
ghost use Rattle.replay.specs.Refusals.{replay_number, replay_position, refusal_at};

use follow::NoNext;

// Each but the first two holds the position, from 1, of the thread number that is refused. Stays a
// case for each reason, and none that holds a `NoNext`: users match each reason by its own case.
#[derive(Clone, Copy, Debug, PartialEq, Eq)]
pub enum ReplayRefusal {
    // the trace is void
    Void,
    // the list's length is not the number of events
    Length,
    // the thread is not below the thread count
    Thread(usize),
    // the thread has no event left
    Done(usize),
    // an event before the thread's next one is missing
    Missing(usize),
    // another group of the next one's variable or lock is open
    Blocked(usize),
}

impl ReplayRefusal {
    // Why the thread number at this position is refused, where no event of its thread comes next.
    // Stays a function, and no `From`: it takes the position too.
    pub fn of(why: NoNext, position: usize) -> ReplayRefusal
        ensures { result ≡ refusal_at position why }
    {
        match why {
            NoNext::Done => ReplayRefusal::Done(position),
            NoNext::Missing => ReplayRefusal::Missing(position),
            NoNext::Blocked => ReplayRefusal::Blocked(position),
        }
    }

    // Stays a match: variants that hold a position can be given no numbers.
    pub fn number(self) -> u8
        ensures { result ≡ replay_number self }
    {
        match self {
            ReplayRefusal::Void => 9,
            ReplayRefusal::Length => 31,
            ReplayRefusal::Thread(_) => 32,
            ReplayRefusal::Done(_) => 33,
            ReplayRefusal::Missing(_) => 34,
            ReplayRefusal::Blocked(_) => 35,
        }
    }

    // The position, or 0 where the whole list is refused. Stays a number, and no Option: users know
    // positions from 1, and 0 as the whole list's.
    pub fn position(self) -> usize
        ensures { result ≡ replay_position self }
    {
        match self {
            ReplayRefusal::Void | ReplayRefusal::Length => 0,
            ReplayRefusal::Thread(position)
            | ReplayRefusal::Done(position)
            | ReplayRefusal::Missing(position)
            | ReplayRefusal::Blocked(position) => position,
        }
    }
}
