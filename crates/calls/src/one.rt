// One call of a list.
ghost use Rattle.std.specs.Prelude.{◌≡◌};
ghost use Rattle.trace.specs.Meaning.{opening_of, noted_of};
ghost use Rattle.calls.specs.Acts.{Gives, after};
ghost use Rattle.calls.specs.Asked.{asked, given, kept};

use crate::call::Call;
use crate::replaying::replay;
use crate::single::{judge, map, note};
use monitor::Monitor;
use trace::Trace;

// Performs the call, and writes its answer in its place.
// Stays a clause: that a call leaves what the trace was opened with is said of before and after, which
// no invariant speaks of.
pub(crate) fn perform_one<M: Monitor>(trace: &mut Trace, call: &mut Call<M>)
    ensures gives { Gives (opening_of trace.old) (noted_of trace.old) (asked M.Monitor.meaning call.old) (given call.new) }
    ensures keeps { kept call.new ≡ kept call.old }
    ensures noted { noted_of trace.new ≡ after (opening_of trace.old) (noted_of trace.old) (asked M.Monitor.meaning call.old) }
    ensures opening { opening_of trace.new ≡ opening_of trace.old }
{
    match call {
        Call::Note { action, answer } => *answer = Some(note(trace, *action)),
        Call::Map { rows, answer } => *answer = Some(map(trace, rows)),
        Call::Replay {
            threads,
            monitor,
            answer,
        } => *answer = Some(replay(trace, threads, monitor)),
        Call::Judge {
            monitor,
            rows,
            threads,
            answer,
        } => *answer = Some(judge(trace, monitor, rows, threads)),
    }
}
