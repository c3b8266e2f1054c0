// Which texts are legal: recordings, and rules alone.
#![tactic(auto)]

mod bytes;
mod cursor;
pub mod flaw;
mod formula;
mod lines;
mod numbers;
mod recording;
mod words;

ghost use Rattle.grammar.specs.Flaws.{shape_of};
ghost use Rattle.grammar.specs.Recording.{Legal, LegalRule, Shaped};
ghost use Rattle.grammar.specs.Theorems.{OneRecording, OneRule, OneShape};

use crate::cursor::Cursor;
pub use flaw::Flaw;

// Whether the text of a recording is legal, apart from the size of its numbers; and if not, the
// first byte with which no legal text goes on, or that it ends early.
pub fn check(text: &[u8]) -> Result<(), Flaw>
    ensures { Shaped Legal text.now (shape_of result) }
{
    let mut cursor = Cursor::new(text);
    cursor.recording()?;
    cursor.end()
}

// The same of the text of a rule alone.
pub fn check_rule(text: &[u8]) -> Result<(), Flaw>
    ensures { Shaped LegalRule text.now (shape_of result) }
{
    let mut cursor = Cursor::new(text);
    cursor.formula(15)?;
    cursor.end()
}

// That a text has exactly one shape, so that there is one answer to give.
pub fn one_shape()
    ensures recordings { OneShape Legal }
    ensures rules { OneShape LegalRule }
{}

// That no two recordings are written alike, and no two rules, so that a legal text says one thing.
pub fn one_meaning()
    ensures recordings { OneRecording }
    ensures rules { OneRule }
{}
