// The words of a formula, read from its text.
ghost use Rattle.std.specs.Prelude.{◌<◌, length};
ghost use Rattle.formula.specs.Reading.{ReadsWord};

use crate::numbers::{number_at, pair_at};
use crate::word::Word;
use text::TextFault;

// The word behind the bracket at `at`, which its first two letters tell, with its numbers.
pub(crate) fn word_at(text: &[u8], at: usize) -> Result<Word, TextFault>
    requires { at < length text.now }
    ensures { ReadsWord text.now at result }
{
    // The text of a formula has no other words, so what is left is `and`.
    match &text[at..] {
        [_, b'e', b'q', ..] => pair_at(text, at + 4).map(|(x, c)| Word::Eq(x, c)),
        [_, b'l', b't', ..] => pair_at(text, at + 4).map(|(x, c)| Word::Lt(x, c)),
        [_, b'g', b't', ..] => pair_at(text, at + 4).map(|(x, c)| Word::Gt(x, c)),
        [_, b'm', b'a', ..] => number_at(text, at + 6).map(Word::Mark),
        [_, b'b', b'y', ..] => number_at(text, at + 4).map(Word::By),
        [_, b'b', b'e', ..] => Ok(Word::Before),
        [_, b'n', b'o', ..] => Ok(Word::Not),
        [_, b'i', b'm', ..] => Ok(Word::Implies),
        [_, b's', b'i', ..] => Ok(Word::Since),
        [_, b'o', b'n', ..] => Ok(Word::Once),
        [_, b'o', b'r', ..] => Ok(Word::Or),
        [_, b'a', b'l', ..] => Ok(Word::Always),
        _ => Ok(Word::And),
    }
}
