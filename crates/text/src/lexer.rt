// Cuts a text into tokens.
ghost use Rattle.std.specs.Prelude.{◌≡◌, ℕ, Bool, ◌+◌, ◌<◌, length, drop};
ghost use Rattle.text.specs.Places.{byte_place};
ghost use Rattle.text.specs.Standing.{Onward};
ghost use Rattle.text.specs.Tokens.{is_blank as blank};
ghost use Rattle.text.specs.Tokens.{Next, Tells, run, sort_of};

use crate::place::Place;
use crate::reader::Reader;
use crate::token::{Sort, Token};

// Whether a byte is a blank or the end of a line.
pub(crate) fn is_blank(byte: u8) -> bool
    ensures { result ≡ blank byte }
{
    matches!(byte, b' ' | b'\n')
}

// Which token a byte of the text begins, if any: a minus begins a number where a digit is behind it.
fn sort_at(text: &[u8], at: usize) -> Option<Sort>
    ensures { result ≡ sort_of (drop at text.now) }
{
    match *text.get(at)? {
        b'(' => Some(Sort::Open),
        b')' => Some(Sort::Close),
        b'a'..=b'z' => Some(Sort::Word),
        b'0'..=b'9' => Some(Sort::Number),
        b'-' if text.get(at + 1).is_some_and(u8::is_ascii_digit) => Some(Sort::Number),
        _ => None,
    }
}

impl<'a> Reader<'a> {
    // A reader at the start of the text.
    pub fn new(text: &'a [u8]) -> Reader<'a>
        ensures text { result.text.now ≡ text.now }
        ensures start { result.at ≡ 0 }
    {
        Reader {
            text,
            at: 0,
            place: Place::START,
        }
    }

    // Passes one byte.
    fn step(&mut self)
        requires { self.old.at < length self.old.text.now }
        ensures text { self.new.text.now ≡ self.old.text.now }
        ensures at { self.new.at ≡ self.old.at + 1 }
    {
        self.place = self.place.past(self.text[self.at]);
        self.at += 1;
    }

    // Passes the bytes that come next, up to the first of which `is` says no.
    pub(crate) fn pass<F: Fn(u8) -> bool>(&mut self, is: F)
        requires { F.IsAlwaysCallable is }
        ensures onward { Onward self.old self.new }
        ensures at { (kind : ℕ → Bool) → Tells F.post is kind → self.new.at ≡ self.old.at + run kind (drop self.old.at self.old.text.now) }
    {
        // Stays a loop by steps: each keeps the place of the next byte.
        while self.at < self.text.len() && is(self.text[self.at]) {
            self.step();
        }
    }

    // Passes blanks and line ends, and hands out the next token: none at the end of the text, or
    // at a byte with which no token begins.
    // Stays a method of its own, and no Iterator's: who has gone through some tokens reads on.
    pub fn next(&mut self) -> Option<Token<'a>>
        ensures text { self.new.text.now ≡ self.old.text.now }
        ensures token { Next self.old.text.now self.old.at result self.new.at }
    {
        self.pass(is_blank);
        let text = self.text;
        let from = self.at;
        let place = self.place;
        let sort = sort_at(text, from)?;
        self.step();
        match sort {
            Sort::Open => Some(Token::Open(place)),
            Sort::Close => Some(Token::Close(place)),
            Sort::Word => {
                self.pass(|byte| byte.is_ascii_lowercase());
                Some(Token::Word(&text[from..self.at], place))
            }
            Sort::Number => {
                self.pass(|byte| byte.is_ascii_digit());
                Some(Token::Number(&text[from..self.at], place))
            }
        }
    }
}

// The place of the byte that has `at` bytes ahead of it, or that of the end of the text where there
// are fewer.
pub fn place_at(text: &[u8], at: usize) -> Place
    ensures { result ≡ byte_place text.now at }
{
    let end = at.min(text.len());
    let mut place = Place::START;
    for byte in &text[..end] {
        place = place.past(*byte);
    }
    place
}
