// How the tables are made.
ghost use Rattle.std.specs.Prelude.{◌≡◌, ℕ, ◌<◌};
ghost use Rattle.events.specs.Noting.{Opening, Noted};
ghost use Rattle.follow.specs.Filling.{one_more, both, taking, Entered, Summed, SummedAt};
ghost use Rattle.follow.specs.Made.{MadeOf, Small};

use crate::object::{OBJECTS, Object};
use crate::role::{Role, role_of};
use crate::tables::{CELLS, PLACES, Standing, Tables, Tally, cell, slot};
use events::{Event, THREADS};
use std::ops::Add;

// The cells of one thread: a row for each count.
const THREAD_CELLS: usize = PLACES * OBJECTS;

// One more.
fn raise(count: &mut u16)
    ensures { count.new ≡ one_more count.old }
{
    *count = count.wrapping_add(1);
}

// Both together, in 16 bits.
impl Add for Tally {
    type Output = Tally;

    ghost add_gives = { λ x y result. result ≡ both x y };

    fn add(self, other: Tally) -> Tally {
        Tally {
            led: self.led.wrapping_add(other.led),
            taken: self.taken.wrapping_add(other.taken),
        }
    }
}

// Sums the tallies of one thread up over its places. Stays a loop by index: each tally adds the one
// a row before it.
fn sum_thread(tallies: &mut [Tally; CELLS], thread: usize)
    requires { thread < 8 }
    ensures { SummedAt tallies.old tallies.new thread }
{
    let first = thread * THREAD_CELLS;
    for i in first + OBJECTS..first + THREAD_CELLS {
        tallies[i] = tallies[i] + tallies[i - OBJECTS];
    }
}

// Sums the tallies of each thread up over its places. Stays a loop over thread numbers: of what is
// written through chunks of a slice the check keeps the length alone.
fn sum_up(tallies: &mut [Tally; CELLS])
    ensures { Summed tallies.old tallies.new }
{
    for thread in 0..THREADS {
        sum_thread(tallies, thread);
    }
}

impl Tables {
    // Counts a read or a release in.
    fn take(&mut self, e: Event, object: Object, source: Option<(u8, u8)>)
        requires { e.thread < 8 }
        ensures { self.new ≡ taking self.old e object.number source }
    {
        raise(&mut self.tallies[cell(e.thread, e.place, object)].taken);
        match source {
            Some((thread, place)) if thread < 8 => {
                raise(&mut self.tallies[cell(thread, place, object)].led);
            }
            _ => raise(&mut self.groups[object.number].starting),
        }
    }

    // Takes one more event in.
    fn enter(&mut self, e: Event)
        requires { e.thread < 8 }
        ensures { Entered self.old e self.new }
    {
        let source = match role_of(e) {
            Role::Take(object) => {
                let source = self.groups[object.number].latest;
                self.take(e, object, source);
                source
            }
            Role::Lead(object) => {
                self.groups[object.number].latest = Some((e.thread, e.place));
                None
            }
            Role::Apart => None,
        };
        self.counts[e.thread as usize] = e.place;
        self.standings[slot(e.thread, e.place)] = Standing { event: e, source };
    }

    // The tables of a list, in one pass over its events. Events of threads that no trace has are
    // left out.
    pub fn make(events: &[Event]) -> Tables
        ensures { (o : Opening) → Small o → Noted o events.now → MadeOf events.now result }
    {
        let mut tables = Tables::blank();
        for e in events {
            if e.thread < 8 {
                tables.enter(*e);
            }
        }
        sum_up(&mut tables.tallies);
        tables.total = events.len();
        tables
    }
}
