// A trace is opened.
ghost use Rattle.std.specs.Prelude.{◌≡◌, [], length, replicate};
ghost use Rattle.events.specs.Noting.{opened};
ghost use Rattle.events.specs.Starts.{filled};
ghost use Rattle.events.specs.declared.lock.Lock.TheVariants.{Free};
ghost use Rattle.trace.specs.Settings.{opening_with};
ghost use Rattle.trace.specs.Meaning.{opening_of, noted_of, rows_of, loan_of};

use crate::Trace;
use crate::setting::Setting;
use crate::state::State;
use events::{Event, LOCKS, Lock, THREADS, VARIABLES};
use rows::Rows;

impl State {
    // The state of a trace with no event.
    fn open(threads: u8, starts: &[i32], rows: usize) -> State
        ensures opening { opening_with result.setting rows ≡ opened threads starts.now rows }
        ensures values { result.values ≡ filled (opening_with result.setting rows).starts }
        ensures locks { result.locks ≡ replicate 16 Free }
        ensures counts { result.counts ≡ replicate 8 0 }
    {
        let setting = Setting::new(threads, starts, rows);
        // Stays a match: that `map_or` over the lent setting answers this table was not found.
        let values = match &setting {
            Ok(setting) => setting.starts.table(),
            Err(_) => [0; VARIABLES],
        };
        State {
            setting,
            values,
            locks: [Lock::Free; LOCKS],
            counts: [0; THREADS],
        }
    }
}

impl<'a> Trace<'a> {
    // The trace of so many threads, with these starting values, over these rows. It has no event, and
    // is void where there is a reason for it.
    pub fn open(threads: u8, starts: &[i32], rows: &'a mut [Event]) -> Trace<'a>
        ensures opening { opening_of result ≡ opened threads starts.now (length rows.old) }
        ensures noted { noted_of result ≡ [] }
        ensures rows { rows_of result ≡ rows.old }
        ensures loan { loan_of result ≡ rows.entry.ghost_name }
    {
        Trace {
            state: State::open(threads, starts, rows.len()),
            rows: Rows::new(rows),
        }
    }
}
