// A recording, from what it says to a noted trace.
ghost use Rattle.std.specs.Prelude.{◌≡◌, []};
ghost use Rattle.events.specs.Noting.{answer, extended};
ghost use Rattle.trace.specs.Meaning.{opening_of, noted_of, loan_of, refused_by};
ghost use Rattle.predictor.specs.Outcome.{opens, placed, NotesAll};

use crate::fault::{Fault, RecordFault};
use events::Action;
use text::Place;
use trace::Trace;

// The line on which a recording's events begin.
const FIRST_EVENT: usize = 2;

// What is said of a void trace: the recording's first line is at fault.
pub(crate) fn opened(trace: &Trace) -> Result<(), Fault>
    ensures { result ≡ opens (opening_of trace.now).void }
{
    trace.opened().map_err(|why| Fault::Record(RecordFault::Opening(why), Place::START))?;
    Ok(())
}

// Notes the action of a line: where it is refused, its own line is at fault.
fn note_line(trace: &mut Trace, action: Action, line: usize) -> Result<u8, Fault>
    ensures says { result ≡ placed (answer (refused_by trace.old action) (noted_of trace.old) action) line }
    ensures noted { noted_of trace.new ≡ extended (refused_by trace.old action) (noted_of trace.old) action }
    ensures opening { opening_of trace.new ≡ opening_of trace.old }
    ensures loan { loan_of trace.new ≡ loan_of trace.old }
{
    trace.note(action).map_err(|why| Fault::Record(
        RecordFault::Noting(why),
        Place { line, column: 1 },
    ))
}

// Notes the actions in a new trace one after another, up to the first that is refused.
pub(crate) fn note_all(trace: &mut Trace, actions: &[Action]) -> Result<(), Fault>
    requires { noted_of trace.old ≡ [] }
    ensures notes { NotesAll (opening_of trace.old) actions.now result (noted_of trace.new) }
    ensures opening { opening_of trace.new ≡ opening_of trace.old }
    ensures loan { loan_of trace.new ≡ loan_of trace.old }
{
    for (i, action) in actions.iter().enumerate() {
        note_line(trace, *action, FIRST_EVENT + i)?;
    }
    Ok(())
}
