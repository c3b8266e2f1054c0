// Goes through the text of a formula, bracket by bracket.
ghost use Rattle.std.specs.Prelude.{◌≤◌, length};
ghost use Rattle.formula.specs.Spelling.{SpellsText};

use crate::reading::word_at;
use crate::spelling::Spelling;
use text::TextFault;

// The words of the formula whose text this is. All are read, so that the first number out of range
// is found wherever it stands.
pub(crate) fn spell(text: &[u8]) -> Result<Spelling, TextFault>
    ensures { SpellsText text.now result }
{
    let mut spelling = Spelling::new();
    for (at, byte) in text.iter().enumerate() {
        if *byte == b'(' {
            spelling.push(word_at(text, at)?);
        }
    }
    Ok(spelling)
}
