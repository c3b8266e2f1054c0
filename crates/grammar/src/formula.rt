// Readers of formulas.
ghost use Rattle.std.specs.Prelude.{◌<◌, [], ◌∷◌, IfOk};
ghost use Rattle.grammar.specs.Machine.{n, form};
ghost use Rattle.grammar.specs.Reading.{Fits, Onward, Reads, ReadsFormulaWord};

use crate::cursor::Cursor;
use crate::flaw::Flaw;

// What stands in a formula's brackets behind its word.
#[derive(Clone, Copy)]
pub(crate) enum Inside {
    // a variable, and the constant that it is compared with
    Comparison,
    // a label or a thread
    Number,
    OneFormula,
    TwoFormulas,
}

// How many of the words hold no formula. Stays a count beside the table: a table of these alone would
// say their words twice, and to read by two tables would be to compare their flaws.
const LEAVES: usize = 5;

// The words that a formula begins with, first those that hold no formula.
const FORMULA_WORDS: [(&'static [u8], Inside); 13] = [
    (b"(eq ", Inside::Comparison),
    (b"(lt ", Inside::Comparison),
    (b"(gt ", Inside::Comparison),
    (b"(mark ", Inside::Number),
    (b"(by ", Inside::Number),
    (b"(not ", Inside::OneFormula),
    (b"(before ", Inside::OneFormula),
    (b"(once ", Inside::OneFormula),
    (b"(always ", Inside::OneFormula),
    (b"(and ", Inside::TwoFormulas),
    (b"(or ", Inside::TwoFormulas),
    (b"(implies ", Inside::TwoFormulas),
    (b"(since ", Inside::TwoFormulas),
];

impl<'a> Cursor<'a> {
    // Reads the word that a formula begins with, and answers what stands behind it. With no room
    // for brackets inside its own, a formula holds no other.
    fn formula_word(&mut self, room: u8) -> Result<Inside, Flaw>
        ensures onward { Onward self.old self.new }
        ensures passed { IfOk result (λ _. self.old.at < self.new.at) }
        ensures fits { IfOk result (Fits room) }
        ensures moves { ReadsFormulaWord room self.old result self.new }
    {
        if room > 0 {
            self.one_of(&FORMULA_WORDS)
        } else {
            self.one_of(&FORMULA_WORDS[..LEAVES])
        }
    }

    // Reads a formula, with room for `room` levels of brackets inside its own.
    pub(crate) fn formula(&mut self, room: u8) -> Result<(), Flaw>
        ensures onward { Onward self.old self.new }
        ensures moves { Reads (n (form room) ∷ []) self.old result self.new }
    {
        match self.formula_word(room)? {
            Inside::Comparison => {
                self.number()?;
                self.byte(b' ')?;
                self.integer()?;
            }
            Inside::Number => self.number()?,
            Inside::OneFormula => self.formula(room - 1)?,
            Inside::TwoFormulas => {
                self.formula(room - 1)?;
                self.byte(b' ')?;
                self.formula(room - 1)?;
            }
        }
        self.byte(b')')
    }
}
