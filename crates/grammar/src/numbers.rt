// Readers of numbers. A number has at most ten digits, and no 0 ahead of another.
ghost use Rattle.std.specs.Prelude.{◌≡◌, [], ◌∷◌, length, take, drop};
ghost use Rattle.std.specs.Char.{is_ascii_digit};
ghost use Rattle.std.specs.List.{take_while};
ghost use Rattle.grammar.specs.Machine.{t, n, some, more, num, int};
ghost use Rattle.grammar.specs.Reading.{Onward, ReadsDigits, ReadsNumber};

use crate::cursor::Cursor;
use crate::flaw::Flaw;

impl<'a> Cursor<'a> {
    // How many digits come next, at most `most`.
    fn digits_ahead(&self, most: usize) -> usize
        ensures { result ≡ length (take_while is_ascii_digit (take most (drop self.now.at self.now.text.now))) }
    {
        self.rest()
            .iter()
            .take(most)
            .take_while(|b| b.is_ascii_digit())
            .count()
    }

    // Passes at most `most` digits.
    fn digits(&mut self, most: usize)
        ensures onward { Onward self.old self.new }
        ensures moves { ReadsDigits most self.old self.new }
    {
        self.at += self.digits_ahead(most);
    }

    // Reads a number above 0.
    fn positive(&mut self) -> Result<(), Flaw>
        ensures onward { Onward self.old self.new }
        ensures moves { ReadsNumber (t some ∷ n (more 9) ∷ []) self.old result self.new }
    {
        match self.text.get(self.at) {
            Some(b'1'..=b'9') => {
                self.at += 1;
                self.digits(9);
                Ok(())
            }
            _ => Err(self.flaw()),
        }
    }

    // Reads a number. Stays written out, since the library's parse takes a 0 ahead of other digits and
    // tells no place.
    pub(crate) fn number(&mut self) -> Result<(), Flaw>
        ensures onward { Onward self.old self.new }
        ensures moves { ReadsNumber (n num ∷ []) self.old result self.new }
    {
        if self.pass(b'0') {
            Ok(())
        } else {
            self.positive()
        }
    }

    // Reads a number that may have a minus.
    pub(crate) fn integer(&mut self) -> Result<(), Flaw>
        ensures onward { Onward self.old self.new }
        ensures moves { ReadsNumber (n int ∷ []) self.old result self.new }
    {
        if self.pass(b'-') {
            self.positive()
        } else {
            self.number()
        }
    }
}
