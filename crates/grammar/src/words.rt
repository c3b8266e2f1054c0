// Words that tell what comes behind them.
ghost use Rattle.grammar.specs.Reading.{Onward, ReadsOne};

use crate::cursor::Cursor;
use crate::flaw::Flaw;

impl<'a> Cursor<'a> {
    // Reads one of the words, and answers what stands beside it.
    pub(crate) fn one_of<T: Copy>(&mut self, words: &[(&'static [u8], T)]) -> Result<T, Flaw>
        ensures onward { Onward self.old self.new }
        ensures one { ReadsOne words.now self.old result self.new }
    {
        let mut flaw = self.flaw();
        for (word, meaning) in words {
            let mut ahead = *self;
            match ahead.word(word) {
                Ok(()) => {
                    *self = ahead;
                    return Ok(*meaning);
                }
                Err(other) => flaw = flaw.max(other),
            }
        }
        Err(flaw)
    }
}
