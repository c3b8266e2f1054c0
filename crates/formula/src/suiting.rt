// Whether a trace has the variables, labels and threads that a formula names.
ghost use Rattle.std.specs.Prelude.{◌≡◌, ◌≤◌, ◌<◌, length};
ghost use Rattle.formula.specs.Reading.{openings, bracket_at};
ghost use Rattle.formula.specs.Spelling.{FaultBy};
ghost use Rattle.formula.specs.Suiting.{suits, refused};

use crate::fault::RuleFault;
use crate::node::MOST;
use crate::spelling::Spelling;
use crate::word::Word;
use text::{Place, place_at};

fn is_suited(word: Word, variables: usize) -> bool
    ensures { result ≡ suits variables word }
{
    match word {
        Word::Eq(x, _) | Word::Lt(x, _) | Word::Gt(x, _) => usize::from(x) < variables,
        Word::Mark(k) => k < 32,
        Word::By(t) => t < 8,
        _ => true,
    }
}

// Why a word that is not suited is refused.
// Stays beside is_suited: a place is looked up for the one word that is refused, and not for each.
fn refusal(word: Word, place: Place) -> RuleFault
    ensures { result ≡ refused word place }
{
    match word {
        Word::Eq(_, _) | Word::Lt(_, _) | Word::Gt(_, _) => RuleFault::Variable(place),
        Word::Mark(_) => RuleFault::Label(place),
        _ => RuleFault::Thread(place),
    }
}

// Where the opening bracket stands that has this many others ahead of it, or 0 if there is none.
// Stays 0 for none: each word that was read has its bracket, but `check` takes any text.
fn bracket(text: &[u8], ahead: usize) -> usize
    ensures { result ≡ bracket_at text.now ahead }
{
    let mut brackets = text
        .iter()
        .enumerate()
        .filter(|(_, byte)| **byte == b'(')
        .map(|(at, _)| at);
    brackets.nth(ahead).unwrap_or(0)
}

// Whether a formula has at most 60 subformulas, and each of them suits.
pub(crate) fn check(spelling: &Spelling, text: &[u8], variables: usize) -> Result<(), RuleFault>
    ensures { FaultBy spelling.now variables text.now result }
{
    let words = spelling.as_slice();
    if words.len() > MOST {
        return Err(RuleFault::TooMany(place_at(text, bracket(text, MOST))));
    }
    if let Some(j) = words.iter().position(|word| !is_suited(*word, variables)) {
        return Err(refusal(words[j], place_at(text, bracket(text, j))));
    }
    Ok(())
}
