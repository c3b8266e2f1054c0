// Builds a recording from a legal text, token by token. What no legal text has is not looked for.
// Stays functions, and no methods of Reader: a reader knows tokens, and these what a recording says.
ghost use Rattle.std.specs.Prelude.{◌≡◌, ℕ, ◌+◌, ◌-◌, ◌<◌, ◌≤◌, true, false, List, ◌∷◌, length, take, drop, ℤ, pos, is_some, Some, codes};
ghost use Rattle.grammar.specs.Recording.{All, Legal, Piece, Writable, ending, lines};
ghost use Rattle.grammar.specs.Recording as piece;
ghost use Rattle.events.specs.Kinds.{kind_number};
ghost use Rattle.events.specs.declared.event.Action.{Action as Did};
ghost use Rattle.text.specs.declared.place.Place.{Place as Spot};
ghost use Rattle.text.specs.Tokens.{ahead, handed, handed_word, kind_in, number_in, placed, seen, word_in};
ghost use Rattle.text.specs.Building.{Built};
ghost use Rattle.text.specs.Standing.{Checked, Ended, LineEnd, ListTaken, Moved, Onward, Role, Roles, Stand, Taken, is_number, token_of, trim};

use crate::fault::{ReadFault, TextFault};
use crate::lexer::is_blank;
use crate::numbers::Number;
use crate::place::Place;
use crate::reader::Reader;
use crate::recording::Recording;
use crate::token::Token;
use events::{Action, Kind};
use std::alloc::Global;

// Passes a token, and hands out its part of the text and its place if it is a number.
fn digits<'a>(reader: &mut Reader<'a>) -> Option<(&'a [u8], Place)>
    ensures moved { Moved reader.old reader.new }
    ensures number { handed result ≡ number_in (ahead reader.old.text.now reader.old.at) }
{
    match reader.next() {
        Some(Token::Number(part, place)) => Some((part, place)),
        _ => None,
    }
}

// Passes a token, and hands out its part of the text if it is a word.
fn word<'a>(reader: &mut Reader<'a>) -> Option<&'a [u8]>
    ensures moved { Moved reader.old reader.new }
    ensures word { handed_word result ≡ word_in (ahead reader.old.text.now reader.old.at) }
{
    match reader.next() {
        Some(Token::Word(part, _)) => Some(part),
        _ => None,
    }
}

// The number that comes next.
fn number<T: Number>(reader: &mut Reader) -> Result<T, TextFault>
    ensures moved { Moved reader.old reader.new }
    ensures taken { (whole ps rest : List Piece) (n : T) → is_number (T.spelling n) ≡ true → Stand whole reader.old ps → trim ps ≡ T.spelling n ∷ rest → Taken whole reader.new n rest result }
{
    let (part, place) = digits(reader).ok_or(TextFault::Unexpected(reader.place))?;
    T::read(part, place)
}

// The kind that a word names.
fn kind(word: &[u8]) -> Option<Kind>
    ensures { result ≡ kind_in word.now }
{
    match word {
        b"internal" => Some(Kind::Internal),
        b"read" => Some(Kind::Read),
        b"write" => Some(Kind::Write),
        b"acquire" => Some(Kind::Acquire),
        b"release" => Some(Kind::Release),
        _ => None,
    }
}

// Passes a bracket and the word behind it: the kind that the word names, if it names one.
fn verb(reader: &mut Reader) -> Option<Kind>
    ensures onward { Onward reader.old reader.new }
    ensures further { is_some result ≡ true → reader.old.at < reader.new.at }
    ensures kind { (whole ps rest : List Piece) (w : List ℕ) → Stand whole reader.old ps → trim ps ≡ piece.opening ∷ piece.word w ∷ rest → (result ≡ kind_in w) × Stand whole reader.new rest }
{
    let _ = reader.next();
    let name = word(reader)?;
    kind(name)
}

// The value of an event of the kind: a lock's event has none written.
fn value(reader: &mut Reader, kind: Kind) -> Result<i32, TextFault>
    ensures onward { Onward reader.old reader.new }
    ensures taken { (whole ps rest : List Piece) (z : ℤ) → Stand whole reader.old ps → ps ≡ ending (kind_number kind) z rest → (3 ≤ kind_number kind → z ≡ pos 0) → Taken whole reader.new z rest result }
{
    match kind {
        Kind::Internal | Kind::Read | Kind::Write => number(reader),
        Kind::Acquire | Kind::Release => Ok(0),
    }
}

// What an event line says behind its kind.
fn event(reader: &mut Reader, kind: Kind) -> Result<Action, TextFault>
    ensures onward { Onward reader.old reader.new }
    ensures taken { (whole ps rest : List Piece) (a : Did) → Stand whole reader.old ps → LineEnd kind a ps rest → Taken whole reader.new a (piece.newline ∷ rest) result }
{
    let thread = number(reader)?;
    let subject = number(reader)?;
    let value = value(reader, kind)?;
    let _ = reader.next();
    // Stays a number: the kind, as in every action.
    Ok(Action {
        thread,
        kind: u8::from(kind),
        subject,
        value,
    })
}

// The values up to a bracket, which is passed.
fn values(heap: Global, reader: &mut Reader) -> Result<Vec<i32>, ReadFault>
    ensures { (whole ps rest : List Piece) (zs : List ℤ) → Stand whole reader.old ps → trim ps ≡ piece.values zs (piece.closing ∷ rest) → ListTaken whole reader.new zs rest result }
{
    let mut values = Vec::new(heap);
    while let Some((part, place)) = digits(reader) {
        let value = i32::read(part, place)?;
        values.push(value)?;
    }
    Ok(values)
}

// The actions of the event lines up to the rule, of which the first bracket and word are passed.
fn actions(heap: Global, reader: &mut Reader) -> Result<Vec<Action>, ReadFault>
    ensures { (whole ps rest : List Piece) (acts : List Did) → All Writable acts → Stand whole reader.old ps → trim ps ≡ lines acts (piece.opening ∷ piece.word (codes "rule") ∷ rest) → ListTaken whole reader.new acts rest result }
{
    let mut actions = Vec::new(heap);
    while let Some(kind) = verb(reader) {
        let action = event(reader, kind)?;
        actions.push(action)?;
    }
    Ok(actions)
}

// Whether a token of a rule is a number, which has to be in range: wide directly behind a number,
// and else small.
// Stays a flag that goes in and one that comes out: whether a number stood ahead tells the range of
// the next, and nothing else of a token does.
fn in_range(token: Token, behind: bool) -> Result<bool, TextFault>
    ensures { (p : Piece) (at : Spot) → seen (Some token.entry) ≡ placed (token_of p) at → Role behind p → Checked p at result }
{
    let Token::Number(part, place) = token else {
        return Ok(false);
    };
    if behind {
        i32::read(part, place)?;
    } else {
        u8::read(part, place)?;
    }
    Ok(true)
}

// Goes through the tokens of a rule to the end of the text.
fn rule(reader: &mut Reader) -> Result<(), TextFault>
    ensures { (whole ps : List Piece) → Stand whole reader.old ps → Roles false ps → Ended whole result }
{
    let mut behind = false;
    while let Some(token) = reader.next() {
        behind = in_range(token, behind)?;
    }
    Ok(())
}

// The part of a text from a byte on, but for the last two bytes.
fn part<'a>(text: &'a [u8], from: usize) -> &'a [u8]
    requires { from + 2 ≤ length text.now }
    ensures { result.now ≡ take (length text.now - 2 - from) (drop from text.now) }
{
    let end = text.len() - 2;
    &text[from..end]
}

// What a legal text says: the open line, the event lines, and the rule, whose part of the text is
// everything from its first bracket to the last two bytes. What stands between the numbers is passed.
pub(crate) fn build<'a>(heap: Global, text: &'a [u8]) -> Result<Recording<'a>, ReadFault>
    requires { Legal text.now }
    ensures { Built text.now result }
{
    let mut reader = Reader::new(text);
    let _ = verb(&mut reader);
    let threads = number(&mut reader)?;
    let _ = reader.next();
    let starts = values(heap, &mut reader)?;
    let _ = reader.next();
    let actions = actions(heap, &mut reader)?;
    reader.pass(is_blank);
    let from = reader.at;
    let rule_place = reader.place;
    rule(&mut reader)?;
    Ok(Recording {
        threads,
        starts,
        actions,
        rule: part(text, from),
        rule_place,
    })
}
