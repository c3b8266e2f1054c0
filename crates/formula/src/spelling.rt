// What is read of the text of a formula.
ghost use Rattle.std.specs.Prelude.{◌≡◌, ◌<◌, ◌≤◌, List, [], ◌∷◌, ◌++◌, length, take};
ghost use Rattle.formula.specs.declared.word.Word.{Word as Spoken};

use crate::node::MOST;
use crate::word::Word;
use std::marker::Model;

// One more than a formula may have: whoever finds so many knows that there are too many.
const ROOM: usize = MOST + 1;

// The first words of a formula.
// Stays a table with a count: making a formula takes no heap, and the crates rest on none of the kit's
// but std, so it is no ArrayVec. Not one type with Table, which is filled from its last row on.
#[derive(Drop)]
pub(crate) struct Spelling {
    words: [Word; ROOM],
    len: usize,
}

impl Model for Spelling {
    ghost Value = { List Spoken };

    ghost view = { λ s. take s.len s.words };

    ghost invariant = { λ s. s.len ≤ 61 };
}

impl Spelling {
    pub(crate) fn new() -> Spelling
        ensures { result ≡ [] }
    {
        Spelling {
            words: [Word::Not; ROOM],
            len: 0,
        }
    }

    // Takes in the word behind the others, if there is room.
    pub(crate) fn push(&mut self, word: Word)
        ensures room { length self.old < 61 → self.new ≡ self.old ++ word ∷ [] }
        ensures full { 61 ≤ length self.old → self.new ≡ self.old }
    {
        if self.len < ROOM {
            self.words[self.len] = word;
            self.len += 1;
        }
    }

    pub(crate) fn as_slice(&self) -> &[Word]
        ensures words { result.now ≡ self.now }
        ensures few { length self.now ≤ 61 }
    {
        &self.words[..self.len]
    }
}
