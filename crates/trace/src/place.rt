// Events are looked up by their place in their thread.
ghost use Rattle.std.specs.Prelude.{◌≡◌};
ghost use Rattle.trace.specs.Places.{place_of, is_at};
ghost use Rattle.trace.specs.Keys.{decides_place};

use events::Event;
use rows::Keyed;

// Where an event stands: its thread, and its number among the thread's events, from 1.
#[derive(Clone, Copy, Debug, PartialEq, Eq)]
pub struct Place {
    pub thread: u8,
    pub place: u8,
}

impl From<Event> for Place {
    ghost from_gives = { λ event place. place ≡ place_of event };

    fn from(event: Event) -> Place {
        Place {
            thread: event.thread,
            place: event.place,
        }
    }
}

impl Keyed<Place> for Event {
    ghost keyed = { place_of };

    ghost has = { is_at };

    ghost decides = { decides_place };

    fn matches(&self, key: Place) -> bool {
        self.thread == key.thread && self.place == key.place
    }
}
