// Reads a recording.
ghost use Rattle.std.specs.Prelude.{◌≡◌};
ghost use Rattle.text.specs.Reading.{Admitted, Answers, flaw_fault};

use crate::build::build;
use crate::fault::{ReadFault, TextFault};
use crate::language::{Language, Recordings};
use crate::lexer::place_at;
use crate::recording::Recording;
use grammar::Flaw;
use std::alloc::Global;

// The most bytes that a text may have.
pub const LONGEST: usize = 60000;

// The fault of a text that has the flaw.
fn fault_of(text: &[u8], flaw: Flaw) -> TextFault
    ensures { result ≡ flaw_fault text.now flaw }
{
    match flaw {
        Flaw::Wrong(at) => TextFault::Unexpected(place_at(text, at)),
        Flaw::Early => TextFault::EndsEarly(place_at(text, text.len())),
    }
}

// Refuses a text of more than 60,000 bytes, and one that is not of the language.
pub fn admit<L: Language>(text: &[u8]) -> Result<(), TextFault>
    ensures { Admitted L.legal text.now result }
{
    if text.len() > LONGEST {
        return Err(TextFault::TooLong);
    }
    L::check(text).map_err(|flaw| fault_of(text, flaw))
}

// What the text says, if it is that of a recording with all numbers in range.
pub fn read<'a>(heap: Global, text: &'a [u8]) -> Result<Recording<'a>, ReadFault>
    ensures { Answers text.now result }
{
    admit::<Recordings>(text)?;
    build(heap, text)
}
