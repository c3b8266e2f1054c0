// Readers of bytes that have to stand in the text. A reader passes what it reads, and answers what
// is wrong with the text where something else stands there.
ghost use Rattle.std.specs.Prelude.{◌≡◌, [], ◌∷◌, IfOk, drop};
ghost use Rattle.grammar.specs.Flaws.{flawed, shape_of};
ghost use Rattle.grammar.specs.Machine.{t, is};
ghost use Rattle.grammar.specs.Reading.{Onward, Passes, Reads, ReadsWord, Spelt, behind};

use crate::cursor::Cursor;
use crate::flaw::Flaw;

impl<'a> Cursor<'a> {
    // A cursor ahead of the whole text.
    pub(crate) fn new(text: &'a [u8]) -> Cursor<'a>
        ensures text { result.text.now ≡ text.now }
        ensures at { result.at ≡ 0 }
    {
        Cursor { text, at: 0 }
    }

    // The bytes that are left.
    pub(crate) fn rest(&self) -> &'a [u8]
        ensures { result.now ≡ drop self.now.at self.now.text.now }
    {
        &self.text[self.at..]
    }

    // Passes the byte `c` if it comes next, and says whether it did.
    pub(crate) fn pass(&mut self, c: u8) -> bool
        ensures { Passes c self.old result self.new }
    {
        let comes = self.text.get(self.at) == Some(&c);
        if comes {
            self.at += 1;
        }
        comes
    }

    // The flaw of a text whose next byte, or whose end, is wrong.
    pub(crate) fn flaw(&self) -> Flaw
        ensures { behind [] self.now ≡ flawed result }
    {
        if self.at < self.text.len() {
            Flaw::Wrong(self.at)
        } else {
            Flaw::Early
        }
    }

    // Reads the byte `c`.
    pub(crate) fn byte(&mut self, c: u8) -> Result<(), Flaw>
        ensures onward { Onward self.old self.new }
        ensures stands { IfOk result (λ _. Spelt (c ∷ []) self.old self.new) }
        ensures moves { Reads (t (is c) ∷ []) self.old result self.new }
    {
        if self.pass(c) {
            Ok(())
        } else {
            Err(self.flaw())
        }
    }

    // Reads the bytes of `w`.
    pub(crate) fn word(&mut self, w: &[u8]) -> Result<(), Flaw>
        ensures onward { Onward self.old self.new }
        ensures spelt { IfOk result (λ _. Spelt w.now self.old self.new) }
        ensures moves { ReadsWord w.now self.old result self.new }
    {
        for c in w {
            self.byte(*c)?;
        }
        Ok(())
    }

    // Reads the end of the text.
    pub(crate) fn end(&self) -> Result<(), Flaw>
        ensures { behind ([] ∷ []) self.now ≡ shape_of result }
    {
        if self.at < self.text.len() {
            Err(self.flaw())
        } else {
            Ok(())
        }
    }
}
