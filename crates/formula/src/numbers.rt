// Numbers in the text of a formula.
// Stays a text and a place in it, and no Reader of the text: one would begin at the first byte, and go
// through all that stands ahead of the number again.
ghost use Rattle.std.specs.Prelude.{◌≡◌, ◌+◌, ◌≤◌, length, take, drop};
ghost use Rattle.formula.specs.Reading.{digits, number_width, ReadsNumber, ReadsPair};

use text::{Number, TextFault, place_at};

// How many digits come next.
fn digit_count(rest: &[u8]) -> usize
    ensures count { result ≡ digits rest.now }
    ensures within { result ≤ length rest.now }
{
    rest.iter().take_while(|byte| byte.is_ascii_digit()).count()
}

// How many bytes the number takes that comes next, behind a minus or not.
fn width(rest: &[u8]) -> usize
    ensures width { result ≡ number_width rest.now }
    ensures within { result ≤ length rest.now }
{
    match rest {
        [b'-', digits @ ..] => digit_count(digits) + 1,
        _ => digit_count(rest),
    }
}

// The bytes of the number that begins at `from`: none, if there is no number.
fn digits_at<'a>(text: &'a [u8], from: usize) -> &'a [u8]
    ensures { result.now ≡ take (number_width (drop from text.now)) (drop from text.now) }
{
    let rest = text.get(from..).unwrap_or(&[]);
    &rest[..width(rest)]
}

// The number that begins at `from`, which has to be in the range of its type.
pub(crate) fn number_at<N: Number>(text: &[u8], from: usize) -> Result<N, TextFault>
    ensures { ReadsNumber N.spelling text.now from result }
{
    N::read(digits_at(text, from), place_at(text, from))
}

// The variable that begins at `from`, and the constant behind it.
pub(crate) fn pair_at(text: &[u8], from: usize) -> Result<(u8, i32), TextFault>
    requires { from ≤ length text.now + 4 }
    ensures { ReadsPair text.now from result }
{
    let variable = number_at::<u8>(text, from)?;
    let behind = from + digits_at(text, from).len() + 1;
    let constant = number_at::<i32>(text, behind)?;
    Ok((variable, constant))
}
