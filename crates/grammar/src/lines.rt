// Readers of lines.
ghost use Rattle.std.specs.Prelude.{◌<◌, [], ◌∷◌, IfOk};
ghost use Rattle.grammar.specs.Machine.{n, t, is, num, rest, vals};
ghost use Rattle.grammar.specs.Reading.{Onward, Reads, ReadsLine, ReadsLineWord, ReadsNumber};

use crate::cursor::Cursor;
use crate::flaw::Flaw;

// What a line says.
#[derive(Clone, Copy)]
pub(crate) enum Line {
    Rule,
    // an action with a value
    Valued,
    // an action without one
    Plain,
}

// The words that a line begins with.
const LINE_WORDS: [(&'static [u8], Line); 6] = [
    (b"(rule ", Line::Rule),
    (b"(internal ", Line::Valued),
    (b"(read ", Line::Valued),
    (b"(write ", Line::Valued),
    (b"(acquire ", Line::Plain),
    (b"(release ", Line::Plain),
];

impl<'a> Cursor<'a> {
    // Reads the values and the bracket behind them.
    pub(crate) fn values(&mut self) -> Result<(), Flaw>
        ensures onward { Onward self.old self.new }
        ensures moves { Reads (n vals ∷ t (is 41) ∷ []) self.old result self.new }
    {
        if self.pass(b')') {
            return Ok(());
        }
        self.integer()?;
        // Stays a while: the test and the body both move the cursor.
        while self.pass(b' ') {
            self.integer()?;
        }
        self.byte(b')')
    }

    // Reads the word that a line begins with, and answers what line it is.
    fn line_word(&mut self) -> Result<Line, Flaw>
        ensures onward { Onward self.old self.new }
        ensures passed { IfOk result (λ _. self.old.at < self.new.at) }
        ensures moves { ReadsLineWord self.old result self.new }
    {
        self.one_of(&LINE_WORDS)
    }

    // Reads the thread and the subject of an action.
    fn thread_and_subject(&mut self) -> Result<(), Flaw>
        ensures onward { Onward self.old self.new }
        ensures moves { ReadsNumber (n num ∷ t (is 32) ∷ n num ∷ []) self.old result self.new }
    {
        self.number()?;
        self.byte(b' ')?;
        self.number()
    }

    // Reads the rest of a line that has a value.
    fn valued(&mut self) -> Result<(), Flaw>
        ensures onward { Onward self.old self.new }
        ensures moves { ReadsLine Line.Valued self.old result self.new }
    {
        self.thread_and_subject()?;
        self.byte(b' ')?;
        self.integer()?;
        self.word(b")\n")
    }

    // Reads the rest of a line that has none.
    fn plain(&mut self) -> Result<(), Flaw>
        ensures onward { Onward self.old self.new }
        ensures moves { ReadsLine Line.Plain self.old result self.new }
    {
        self.thread_and_subject()?;
        self.word(b")\n")
    }

    // Reads the lines of the actions, and the rule's.
    pub(crate) fn lines(&mut self) -> Result<(), Flaw>
        ensures onward { Onward self.old self.new }
        ensures moves { Reads (n rest ∷ []) self.old result self.new }
    {
        loop {
            match self.line_word()? {
                Line::Rule => {
                    self.formula(14)?;
                    return self.word(b")\n");
                }
                Line::Valued => self.valued()?,
                Line::Plain => self.plain()?,
            }
        }
    }
}
