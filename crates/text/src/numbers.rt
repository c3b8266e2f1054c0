// Numbers from their digits.
ghost use Rattle.std.specs.Prelude.{◌≡◌, List, ℕ, Err, Result, IsUtf8};
ghost use Rattle.std.specs.Int.{w32};
ghost use Rattle.std.specs.Str.Parse.{ParsesSigned, ParsesUnsigned};
ghost use Rattle.std.specs.declared.num.ParseIntError.{ParseIntError as NoNumber};
ghost use Rattle.text.specs.declared.fault.TextFault.TheVariants.{OutOfRange};
ghost use Rattle.grammar.specs.Recording.{Piece, bytes};
ghost use Rattle.grammar.specs.Recording as piece;
ghost use Rattle.text.specs.Ranges.{ParsedAt, Short, fitting};

use crate::fault::TextFault;
use crate::place::Place;
use std::num::ParseIntError;
use std::str;
use std::str::FromStr;

// A type of the numbers of a text.
pub trait Number: Sized {
    // the piece of a text that spells the number
    ghost spelling: { Self → Piece };

    // what the library's parsing tells of any UTF-8 bytes
    ghost parses: { List ℕ → Result Self NoNumber → Type 0 };

    // The number that the digits at a place spell, which has to be in the range of its piece. Of any
    // other bytes it says what the library's parsing does.
    fn read(digits: &[u8], place: Place) -> Result<Self, TextFault>
        ensures spelt { (n : Self) → Short (spelling n) → digits.now ≡ bytes (spelling n) → result ≡ fitting (spelling n) n place }
        ensures parsed { IsUtf8 digits.now → ParsedAt parses digits.now place result }
        ensures other { (IsUtf8 digits.now → ⊥) → result ≡ Err (OutOfRange place) };
}

// The number that the bytes at a place spell: any others are out of range.
fn parse<T: FromStr<Err = ParseIntError>>(digits: &[u8], place: Place) -> Result<T, TextFault>
    ensures parsed { IsUtf8 digits.now → ParsedAt T.from_str_gives digits.now place result }
    ensures other { (IsUtf8 digits.now → ⊥) → result ≡ Err (OutOfRange place) }
{
    let fault = TextFault::OutOfRange(place);
    let digits = str::from_utf8(digits).map_err(|_| fault)?;
    digits.parse().map_err(|_| fault)
}

// Thread counts, threads, labels, variables and locks: at most 255.
// Stays a body at each type: one for all would have to take, as a law of the trait, what the library's
// parsing answers at a number's spelling.
impl Number for u8 {
    ghost spelling = { piece.small };

    ghost parses = { ParsesUnsigned 8 10 };

    fn read(digits: &[u8], place: Place) -> Result<u8, TextFault> {
        parse::<u8>(digits, place)
    }
}

// Values, behind a minus or not: of 32 bits.
impl Number for i32 {
    ghost spelling = { piece.wide };

    ghost parses = { ParsesSigned w32 10 };

    fn read(digits: &[u8], place: Place) -> Result<i32, TextFault> {
        parse::<i32>(digits, place)
    }
}
