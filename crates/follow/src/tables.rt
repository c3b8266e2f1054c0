// The tables of a noted list, from which each step along its runs is a few look-ups.
ghost use Rattle.std.specs.Prelude.{◌≡◌, ℕ, ◌<◌, List, length};
ghost use Rattle.events.specs.declared.event.Event.{Event as AnEvent};
ghost use Rattle.order.specs.Trace.{thread_at, place_at};
ghost use Rattle.order.specs.Maps.{Source};
ghost use Rattle.follow.specs.Filling.{blank_tables};
ghost use Rattle.follow.specs.Made.{slot_of, cell_of, MadeOf, source_in};

use crate::object::{OBJECTS, Object};
use events::{Event, THREADS};
use order::Row;

// How many places a thread can have, and counts of its first events: 0 to 255 either way.
pub(crate) const PLACES: usize = 256;

// A slot for each thread and each place or count.
pub(crate) const SLOTS: usize = THREADS * PLACES;

// A cell for each slot and each object.
pub(crate) const CELLS: usize = SLOTS * OBJECTS;

// What stands at a place of a thread.
#[derive(Clone, Copy)]
pub(crate) struct Standing {
    pub(crate) event: Event,
    // Thread and place of the event that feeds it, if one does. Stays a pair: it is handed out as one.
    pub(crate) source: Option<(u8, u8)>,
}

// The groups of an object.
#[derive(Clone, Copy)]
pub(crate) struct Groups {
    // thread and place of its latest write or acquire, if there is one
    pub(crate) latest: Option<(u8, u8)>,
    // the size of its starting group
    pub(crate) starting: u16,
}

// How many reads or releases of an object have to do with a thread's first events.
#[derive(Clone, Copy)]
pub(crate) struct Tally {
    // how many of them those events feed
    pub(crate) led: u16,
    // how many of them are among those events
    pub(crate) taken: u16,
}

#[derive(Drop)]
pub struct Tables {
    // how many events the list has
    pub(crate) total: usize,
    // of each thread, how many events it has
    pub(crate) counts: [u8; THREADS],
    // By thread and place. Stays one table: a slot is numbered as the row of its tallies is.
    pub(crate) standings: [Standing; SLOTS],
    // by object
    pub(crate) groups: [Groups; OBJECTS],
    // By thread, count of its first events, and object. Stays one table for all: a table for each
    // thread, with a row for each count, was made in more than twice the time.
    pub(crate) tallies: [Tally; CELLS],
}

impl Tables {
    // The tables of no events.
    pub(crate) fn blank() -> Tables
        ensures { result ≡ blank_tables }
    {
        let standing = Standing {
            event: Event::BLANK,
            source: None,
        };
        let groups = Groups {
            latest: None,
            starting: 0,
        };
        Tables {
            total: 0,
            counts: [0; THREADS],
            standings: [standing; SLOTS],
            groups: [groups; OBJECTS],
            tallies: [Tally { led: 0, taken: 0 }; CELLS],
        }
    }

    // How many events the list has.
    pub fn total(&self) -> usize
        ensures { result ≡ self.now.total }
    {
        self.total
    }

    // Thread and place of the event that feeds the thread's event of this place, or `NO_SOURCE`.
    pub fn source(&self, thread: u8, place: u8) -> (u8, u8)
        ensures held { result ≡ source_in self.now thread place }
        ensures feeds { (es : List AnEvent) → MadeOf es self.now → (i : ℕ) → i < length es → thread_at es i ≡ thread → place_at es i ≡ place → Source es i result.0 result.1 }
    {
        // Stays a pair, `NO_SOURCE` where none feeds it: a map's row tells its source so.
        if thread < 8 {
            return self.standings[slot(thread, place)]
                .source
                .unwrap_or(Row::NO_SOURCE);
        }
        Row::NO_SOURCE
    }
}

// Where a thread's event of this place stands; and the row of the tallies of as many first events.
pub(crate) fn slot(thread: u8, place: u8) -> usize
    ensures { result ≡ slot_of thread place }
{
    thread as usize * PLACES + place as usize
}

// Where an object's tally for a thread's first events stands, as many as the count.
pub(crate) fn cell(thread: u8, count: u8, object: Object) -> usize
    ensures { result ≡ cell_of thread count object.number }
{
    slot(thread, count) * OBJECTS + object.number
}
