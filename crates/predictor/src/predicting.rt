// The whole way: a recording's text, its trace, its rule, and the word on all orders of its events.
ghost use Rattle.std.specs.Prelude.{◌≡◌, length};
ghost use Rattle.predictor.specs.Predicted.{Predicted, TellsRule};

use crate::fault::Stop;
use crate::judging::judge_rule;
use crate::noting::{note_all, opened};
use events::Event;
use judge::{SearchRow, Verdict};
use std::alloc::Global;
use trace::Trace;

// What the predictor says of a recording: whether some order of its events breaks its rule, how
// many pairs of a cut and a code can be reached, and how many events there are.
#[derive(Clone, Copy, Debug, PartialEq, Eq)]
pub struct Prediction {
    pub verdict: Verdict,
    pub pairs: usize,
    pub events: usize,
}

// Reads a recording, notes its events, makes its rule and judges all orders of the events by it.
// Where an order breaks the rule, the front of `threads` has the least one, thread by thread.
pub fn predict(
    heap: Global,
    text: &[u8],
    rows: &mut [Event],
    pairs: &mut [SearchRow],
    threads: &mut [u8],
) -> Result<Prediction, Stop>
    ensures predicted { Predicted text.now (length rows.old) pairs.old threads.old result pairs.new threads.new }
    ensures rule { TellsRule text.now (length rows.old) result threads.new }
{
    let recording = text::read(heap, text)?;
    let mut trace = Trace::open(recording.threads, &recording.starts, rows);
    opened(&trace)?;
    note_all(&mut trace, &recording.actions)?;
    let judged = judge_rule(&trace, &recording, pairs, threads)?;
    let events = recording.actions.len();
    Ok(Prediction {
        verdict: judged.verdict,
        pairs: judged.pairs,
        events,
    })
}
