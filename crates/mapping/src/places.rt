// Where an event's row stands: behind the rows of the threads below its own, by its place.
ghost use Rattle.std.specs.Prelude.{◌≡◌, ℕ, ◌+◌, ◌-◌, ◌^◌, ◌<◌, length, slice_index};
ghost use Rattle.order.specs.Sound.{count};
ghost use Rattle.mapping.specs.Rows.{base};

use crate::placed::Placed;
use events::Event;

// How many events each thread has.
fn counts(events: &[Event]) -> [usize; 8]
    ensures { (t : ℕ) → t < 8 → slice_index result t ≡ count events.now t (length events.now) }
{
    let mut counts = [0; 8];
    for event in events {
        let thread = event.thread as usize;
        if thread < counts.len() {
            counts[thread] += 1;
        }
    }
    counts
}

// Where the rows of each thread begin.
#[derive(Drop)]
pub(crate) struct Bases {
    pub(crate) starts: [usize; 8],
}

impl Bases {
    pub(crate) fn new(events: &[Event]) -> Bases
        ensures { (t : ℕ) → t < 8 → slice_index result.starts t ≡ base events.now t }
    {
        let counts = counts(events);
        let mut starts = [0; 8];
        let mut ahead = 0;
        // Stays a loop by index over what one pass counted: to count the events below each thread by
        // an iterator goes over them eight times.
        for t in 0..8 {
            starts[t] = ahead;
            ahead += counts[t];
        }
        Bases { starts }
    }

    // Where the event's row stands.
    pub(crate) fn position(&self, placed: Placed) -> usize
        requires { slice_index self.now.starts placed.event.thread + placed.event.place < 2 ^ 64 }
        ensures { result ≡ slice_index self.now.starts placed.event.thread + placed.event.place - 1 }
    {
        let event = placed.event;
        self.starts[event.thread as usize] + event.place as usize - 1
    }
}
