// What a trace is set to when it is opened.
ghost use Rattle.std.specs.Prelude.{◌≡◌, ◌≤◌, length};
ghost use Rattle.events.specs.Kinds.{kind_number};
ghost use Rattle.events.specs.Noting.{opened, subjects};

use events::{EVENT_ROWS, Kind, LABELS, LOCKS, OpenRefusal, Starts, THREADS};

// The number of threads, and the starting values of the variables.
#[derive(Clone, Copy)]
pub struct Setting {
    pub(crate) threads: u8,
    pub(crate) starts: Starts,
    ghost few: { threads ≤ 8 },
    ghost known: { length starts ≤ 32 },
}

impl Setting {
    ghost use Rattle.trace.specs.Settings.{opening_by, opening_with};

    // The setting of a trace over so many rows, or why there is none.
    pub(crate) fn new(threads: u8, starts: &[i32], rows: usize) -> Result<Setting, OpenRefusal>
        ensures { opening_with result rows ≡ opened threads starts.now rows }
    {
        if threads == 0 || threads as usize > THREADS {
            return Err(OpenRefusal::Threads);
        }
        let starts = Starts::new(starts).ok_or(OpenRefusal::Variables)?;
        if rows > EVENT_ROWS {
            return Err(OpenRefusal::Rows);
        }
        Ok(Setting { threads, starts })
    }

    // How many subjects a kind has.
    pub(crate) fn subjects(&self, kind: Kind) -> usize
        ensures { result ≡ subjects (opening_by self.now 0) (kind_number kind) }
    {
        match kind {
            Kind::Internal => LABELS,
            Kind::Read | Kind::Write => self.starts.count(),
            Kind::Acquire | Kind::Release => LOCKS,
        }
    }
}
