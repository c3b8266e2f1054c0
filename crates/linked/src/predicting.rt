// The call from C.
ghost use Rattle.linked.specs.Told.{Says, Told};

use crate::answer::Answer;
use events::Event;
use judge::SearchRow;
use predictor::{Prediction, Stop};
use std::alloc::Global;

// One row more than a judge takes, so that whoever asks for more is refused by its number and no
// more memory than this is asked for.
const MOST_ROWS: usize = 65537;

// Predicts over so many rows of pairs, which are made for the call.
fn predict_over(
    heap: Global,
    text: &[u8],
    rows: usize,
    threads: &mut [u8],
) -> Result<Prediction, Stop>
    ensures { Says text.now rows threads.old result threads.new }
{
    let mut events = [Event::BLANK; 1024];
    let mut pairs = Vec::from_elem(heap, SearchRow::BLANK, rows)?;
    predictor::predict(heap, text, &mut events, pairs.as_mut_slice(), threads)
}

// Predicts from the text of a recording, over 1,024 event rows and as many rows of pairs as are
// asked for. Where an order breaks the rule, the front of `threads` has the least one, thread by
// thread. In C: `Answer linked_predict(text, length, rows, threads, length)`.
#[unsafe(no_mangle)]
pub extern "C" fn linked_predict(
    heap: Global,
    text: &[u8],
    rows: usize,
    threads: &mut [u8],
) -> Answer
    ensures { Told text.now rows threads.old result threads.new }
{
    let room = rows.min(MOST_ROWS);
    Answer::from(predict_over(heap, text, room, threads))
}
