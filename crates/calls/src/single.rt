// Each call by itself. Whatever list of calls led to the trace, that list with the call at its end is
// lawful too, so a program may mix its calls freely.
// Stays two things in each clause, what a trace was opened with and what it has noted: the one stays
// while the other grows, and the laws of lists say so of each.
ghost use Rattle.std.specs.Prelude.{◌≡◌};
ghost use Rattle.trace.specs.Meaning.{opening_of, noted_of};
ghost use Rattle.calls.specs.Acts.{to_note, to_map, to_judge, gave_note, gave_map, gave_judge, Gives, after};
ghost use Rattle.calls.specs.More.{OneMore};

use events::{Action, Refusal};
use judge::{JudgeRefusal, Judgement, SearchRow, judge as judge_runs};
use mapping::{MapRefusal, map as map_events};
use monitor::Monitor;
use order::Row;
use trace::Trace;

// Notes the action as its thread's next event, and gives its place; or refuses it.
// Stays a clause: that a call leaves what the trace was opened with is said of before and after, which
// no invariant speaks of.
pub fn note(trace: &mut Trace, action: Action) -> Result<u8, Refusal>
    ensures gives { Gives (opening_of trace.old) (noted_of trace.old) (to_note action) (gave_note result) }
    ensures noted { noted_of trace.new ≡ after (opening_of trace.old) (noted_of trace.old) (to_note action) }
    ensures opening { opening_of trace.new ≡ opening_of trace.old }
    ensures more { OneMore (opening_of trace.old) (noted_of trace.old) (to_note action) (gave_note result) (opening_of trace.new) (noted_of trace.new) }
{
    trace.note(action)
}

// Writes the map of the noted events into the rows, and gives how many there are; or refuses.
pub fn map(trace: &Trace, rows: &mut [Row]) -> Result<usize, MapRefusal>
    ensures gives { Gives (opening_of trace.now) (noted_of trace.now) (to_map rows.old) (gave_map result rows.new) }
    ensures more { OneMore (opening_of trace.now) (noted_of trace.now) (to_map rows.old) (gave_map result rows.new) (opening_of trace.now) (noted_of trace.now) }
{
    map_events(trace, rows)
}

// Judges the noted events under the monitor, in rows for the pairs; where a run violates, the thread
// list takes the least one.
pub fn judge<M: Monitor>(
    trace: &Trace,
    monitor: &M,
    rows: &mut [SearchRow],
    threads: &mut [u8],
) -> Result<Judgement, JudgeRefusal>
    ensures gives { Gives (opening_of trace.now) (noted_of trace.now) (to_judge (M.Monitor.meaning monitor.now) rows.old threads.old) (gave_judge result rows.new threads.new) }
    ensures more { OneMore (opening_of trace.now) (noted_of trace.now) (to_judge (M.Monitor.meaning monitor.now) rows.old threads.old) (gave_judge result rows.new threads.new) (opening_of trace.now) (noted_of trace.now) }
{
    judge_runs(trace, monitor, rows, threads)
}
