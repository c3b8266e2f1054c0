// What the row of the next event is made from.
ghost use Rattle.std.specs.Prelude.{◌≡◌, ℕ, ◌<◌, None, replicate, slice_index, slice_index_or, slice_set};
ghost use Rattle.order.specs.Clocks.{tick};
ghost use Rattle.mapping.specs.Latest.{feeder, source_of, met, thread_clock, with_write, with_acquire};

use crate::clocks::{joined, ticked};
use crate::placed::Placed;
use events::Kind;
use order::Row;

// Each thread's clock, and the rows of the latest write of each variable and of the latest acquire of
// each lock. Stays two tables, by variable and by lock, as the rule of what feeds an event speaks of
// them; follow's objects number both together, since its groups are made alike of both.
#[derive(Drop)]
pub(crate) struct Latest {
    pub(crate) clocks: [[u8; 8]; 8],
    pub(crate) writes: [Option<Row>; 32],
    pub(crate) acquires: [Option<Row>; 16],
}

impl Latest {
    // Those of no event.
    pub(crate) fn none() -> Latest
        ensures clocks { result.clocks ≡ replicate 8 (replicate 8 0) }
        ensures writes { result.writes ≡ replicate 32 None }
        ensures acquires { result.acquires ≡ replicate 16 None }
    {
        Latest {
            clocks: [[0; 8]; 8],
            writes: [None; 32],
            acquires: [None; 16],
        }
    }

    // The row of what feeds the event: the latest write of its variable a read, the latest acquire of
    // its lock a release.
    fn feeder(&self, placed: Placed) -> Option<Row>
        ensures { result ≡ feeder self.now placed.event }
    {
        let event = placed.event;
        match Kind::try_from(event.kind) {
            Ok(Kind::Read) => self.writes[event.subject as usize],
            Ok(Kind::Release) => self.acquires[event.subject as usize],
            _ => None,
        }
    }

    // The row of the event. Its clock is its thread's with one more, joined with the clock of what feeds
    // it.
    pub(crate) fn row(&self, placed: Placed) -> Row
        requires { slice_index (thread_clock self.now placed.event) placed.event.thread < 255 }
        ensures event { result.event ≡ placed.event }
        ensures source { result.source ≡ source_of (feeder self.now placed.event) }
        ensures clock { (j : ℕ) → j < 8 → slice_index result.clock j ≡ met (feeder self.now placed.event) j (tick placed.event.thread (λ u. slice_index (thread_clock self.now placed.event) u) j) }
    {
        let event = placed.event;
        let own = ticked(self.clocks[event.thread as usize], event.thread);
        match self.feeder(placed) {
            Some(fed_by) => Row {
                event,
                source: (fed_by.event.thread, fed_by.event.place),
                clock: joined(own, fed_by.clock),
            },
            None => Row {
                event,
                source: Row::NO_SOURCE,
                clock: own,
            },
        }
    }

    // Takes in the event's row.
    pub(crate) fn note(&mut self, placed: Placed, row: Row)
        ensures clocks { self.new.clocks ≡ slice_set self.old.clocks placed.event.thread row.clock }
        ensures writes { self.new.writes ≡ with_write self.old.writes placed.event row }
        ensures acquires { self.new.acquires ≡ with_acquire self.old.acquires placed.event row }
    {
        let event = placed.event;
        let clock = row.clock;
        self.clocks[event.thread as usize] = clock;
        match Kind::try_from(event.kind) {
            Ok(Kind::Write) => self.writes[event.subject as usize] = Some(row),
            Ok(Kind::Acquire) => self.acquires[event.subject as usize] = Some(row),
            _ => {}
        }
    }
}
