// A small trace looked at through its calls: every list of threads replayed, and its map, each as a
// digest of what was answered.
ghost use Rattle.std.specs.Prelude.{◌≤◌};

use calls::{map, note};
use events::Event;
use follow::Tables;
use formula::Formula;
use order::Row;
use replay::replay;
use std::fmt;
use text::Recording;
use trace::Trace;

// The most events that a trace is looked at with.
const MOST: usize = 8;

// The most threads.
const FEW: u8 = 3;

// How many lists are consistent runs, a digest of them and of what the rule says of each, and a
// digest of the map.
#[derive(Clone, Copy)]
pub struct Digests {
    pub runs: usize,
    pub digest: u64,
    pub map: u64,
}

impl fmt::Display for Digests {
    fn fmt<W: fmt::Write>(&self, f: &mut fmt::Formatter<W>) -> fmt::Result {
        let Digests { runs, digest, map } = self;
        write!(f, "{runs} runs {digest} map {map}")
    }
}

fn mixed(digest: u64, n: u64) -> u64 {
    digest.wrapping_mul(1099511628211).wrapping_add(n)
}

// The list with this number, of all lists of so many threads: its digits, the first the lowest.
// Stays apart from the digits of the other test program: the two would need a library for six lines.
fn list_of(number: usize, threads: u8) -> [u8; MOST] {
    let mut list = [0u8; MOST];
    let mut rest = number;
    if threads > 0 {
        for thread in &mut list {
            *thread = (rest % threads as usize) as u8;
            rest /= threads as usize;
        }
    }
    list
}

fn map_digest(rows: &[Row]) -> u64 {
    let mut digest = 0;
    for row in rows {
        let Event {
            thread,
            place,
            kind,
            subject,
            value,
        } = row.event;
        for number in [thread, place, kind, subject] {
            digest = mixed(digest, number as u64);
        }
        digest = mixed(digest, u64::from(value.unsigned_abs()));
        digest = mixed(digest, row.source.0 as u64);
        digest = mixed(digest, row.source.1 as u64);
        for count in row.clock {
            digest = mixed(digest, count as u64);
        }
    }
    digest
}

// Replays every list of so many events: how many are consistent runs, and the digest of them.
// Stays a range: the lists are known by their numbers.
fn replays(tables: &Tables, threads: u8, events: usize, formula: &Formula) -> (usize, u64)
    requires { events ≤ 8 }
{
    let lists = (threads as usize).saturating_pow(events as u32);
    let mut runs = 0usize;
    let mut digest = 0;
    for number in 0..lists {
        let list = list_of(number, threads);
        if let Ok(verdict) = replay(tables, threads, &list[..events], formula) {
            runs = runs.saturating_add(1);
            digest = mixed(digest, number as u64);
            digest = mixed(digest, u64::from(verdict.violated));
        }
    }
    (runs, digest)
}

// Notes the recording in the trace and looks at it, where it is small.
pub fn look(trace: &mut Trace, recording: &Recording) -> Option<Digests> {
    let events = recording.actions.len();
    if events > MOST || recording.threads > FEW {
        return None;
    }
    for action in recording.actions.iter() {
        let _ = note(trace, *action);
    }
    let mut rows = [Row::BLANK; MOST];
    let written = map(trace, &mut rows).ok()?;
    let map = map_digest(rows.get(..written)?);
    let formula = Formula::make(trace, recording.rule).ok()?;
    let tables = Tables::make(trace.events());
    let (runs, digest) = replays(&tables, trace.threads(), events, &formula);
    Some(Digests { runs, digest, map })
}
