// Replays on a trace.
ghost use Rattle.trace.specs.Meaning.{opening_of, noted_of};
ghost use Rattle.calls.specs.Replays.{Replays, Granted};
ghost use Rattle.calls.specs.Acts.{to_replay, gave_replay};
ghost use Rattle.calls.specs.More.{OneMore};

use follow::Tables;
use monitor::{Monitor, Verdict};
use replay::{ReplayRefusal, replay as replay_along};
use trace::Trace;

// Takes the threads' next events one by one, in the order of the list, and says what the monitor
// says of that run; or refuses the list at its first thread number that does not fit. A void trace
// is refused whatever the list.
pub fn replay<M: Monitor>(
    trace: &Trace,
    threads: &[u8],
    monitor: &M,
) -> Result<Verdict, ReplayRefusal>
    ensures replays { Replays (opening_of trace.now) (noted_of trace.now) (M.Monitor.meaning monitor.now) threads.now result }
    ensures granted { Granted (opening_of trace.now) (noted_of trace.now) threads.now result }
    ensures more { OneMore (opening_of trace.now) (noted_of trace.now) (to_replay (M.Monitor.meaning monitor.now) threads.now) (gave_replay result) (opening_of trace.now) (noted_of trace.now) }
{
    trace.opened().map_err(|_| ReplayRefusal::Void)?;
    let tables = Tables::make(trace.events());
    replay_along(&tables, trace.threads(), threads, monitor)
}
