// What a text is made of.
use crate::place::Place;

// A bracket, a word or a number, with the place of its first byte. Words and numbers are parts of
// the text.
#[derive(Clone, Copy, Debug)]
pub enum Token<'a> {
    Open(Place),
    Close(Place),
    Word(&'a [u8], Place),
    Number(&'a [u8], Place),
}

// Which token begins at a byte.
// Stays beside Token: which one it is, is known before its end is.
#[derive(Clone, Copy)]
pub(crate) enum Sort {
    Open,
    Close,
    Word,
    Number,
}
