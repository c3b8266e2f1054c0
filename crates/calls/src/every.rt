// Lists of calls.
ghost use Rattle.std.specs.Prelude.{◌≡◌, map};
ghost use Rattle.trace.specs.Meaning.{opening_of, noted_of};
ghost use Rattle.calls.specs.Acts.{Performed};
ghost use Rattle.calls.specs.Law.{Lawful};
ghost use Rattle.calls.specs.More.{Extends};
ghost use Rattle.calls.specs.Asked.{asked, given, kept};

use crate::call::Call;
use crate::one::perform_one;
use monitor::Monitor;
use trace::Trace;

// Performs the calls in their order. Each answer, and what each call's rows and lists hold, is
// written in its place.
// Stays a clause: that a call leaves what the trace was opened with is said of before and after, which
// no invariant speaks of.
pub fn perform<M: Monitor>(trace: &mut Trace, calls: &mut [Call<M>])
    ensures performed { Performed (opening_of trace.old) (noted_of trace.old) (map (asked M.Monitor.meaning) calls.old) (map given calls.new) (noted_of trace.new) }
    ensures lawful { Lawful (opening_of trace.old) (noted_of trace.old) (map (asked M.Monitor.meaning) calls.old) (map given calls.new) }
    ensures more { Extends (opening_of trace.old) (noted_of trace.old) (map (asked M.Monitor.meaning) calls.old) (map given calls.new) (opening_of trace.new) (noted_of trace.new) }
    ensures keeps { map kept calls.new ≡ map kept calls.old }
    ensures opening { opening_of trace.new ≡ opening_of trace.old }
{
    for call in calls.iter_mut() {
        perform_one(trace, call);
    }
}
