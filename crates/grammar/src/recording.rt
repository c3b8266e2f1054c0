// The reader of recordings.
ghost use Rattle.grammar.specs.Machine.{start};
ghost use Rattle.grammar.specs.Reading.{Onward, Reads};

use crate::cursor::Cursor;
use crate::flaw::Flaw;

impl<'a> Cursor<'a> {
    // Reads a recording.
    pub(crate) fn recording(&mut self) -> Result<(), Flaw>
        ensures onward { Onward self.old self.new }
        ensures moves { Reads start self.old result self.new }
    {
        self.word(b"(open ")?;
        self.number()?;
        self.word(b" (")?;
        self.values()?;
        self.word(b")\n")?;
        self.lines()
    }
}
