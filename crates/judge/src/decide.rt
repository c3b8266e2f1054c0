// The verdict on listed pairs.
ghost use Rattle.std.specs.Prelude.{◌≡◌};
ghost use Rattle.pairs.specs.Pairs.{size_of};
ghost use Rattle.judge.specs.Decided.{ends, DecidedBy};

use crate::row::SearchRow;
use crate::verdict::Verdict;
use explore::path_back;
use monitor::Monitor;

// How many events are in a cut.
fn size(cut: [u8; 8]) -> usize
    ensures { result ≡ size_of cut }
{
    cut.iter().map(|count| usize::from(*count)).sum()
}

// Whether all of so many events are in the row's cut, and its code is bad.
fn ends_badly<M: Monitor>(row: &SearchRow, monitor: &M, events: usize) -> bool
    ensures { result ≡ ends (M.Monitor.meaning monitor.now) events row.now }
{
    monitor.bad(row.pair.code) && size(row.pair.cut) == events
}

// The verdict on the rows. Where a row ends badly, the path to the first such row is written into
// the front of the thread list.
pub(crate) fn decide<M: Monitor>(
    rows: &[SearchRow],
    monitor: &M,
    events: usize,
    threads: &mut [u8],
) -> Verdict
    ensures { DecidedBy (ends (M.Monitor.meaning monitor.now) events) rows.now threads.old result threads.new }
{
    match rows.iter().position(|row| ends_badly(row, monitor, events)) {
        Some(row) => {
            // No answer is needed: the path is as long as the list of events, and there is room for it.
            let _ = path_back(rows, row, threads);
            Verdict::Found
        }
        None => Verdict::None,
    }
}
