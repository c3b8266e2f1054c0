// Cases as they stand on standard input: a line `ROWS LENGTH NAME`, then LENGTH bytes of text and
// a byte 10.
ghost use Rattle.std.specs.Prelude.{◌≡◌, ◌<◌, ◌≤◌, length, drop, IfSome};
ghost use Rattle.std.specs.Char.{is_ascii_digit};
ghost use Rattle.std.specs.List.{take_while};

// One case, by its parts of the input.
#[derive(Clone, Copy)]
pub struct Case<'a> {
    pub rows: usize,
    pub name: &'a str,
    pub text: &'a [u8],
}

// How many digits the input begins with. Stays beside the formula's count of digits, which is that
// crate's own: to share five lines it would have to hand them out.
fn digit_count(input: &[u8]) -> usize
    ensures count { result ≡ length (take_while is_ascii_digit input.now) }
    ensures within { result ≤ length input.now }
{
    input
        .iter()
        .take_while(|byte| byte.is_ascii_digit())
        .count()
}

// The number in decimal digits that the input begins with, or 0 where it begins with none, and the
// input behind its digits. A number that is too large is told as the largest there is.
fn number(input: &[u8]) -> (usize, &[u8])
    ensures within { length result.1.now ≤ length input.now }
    ensures rest { result.1.now ≡ drop (length (take_while is_ascii_digit input.now)) input.now }
{
    let digits = digit_count(input);
    let value = input[..digits].iter().fold(0usize, |value, digit| {
        value
            .saturating_mul(10)
            .saturating_add(usize::from(digit.saturating_sub(b'0')))
    });
    (value, &input[digits..])
}

// The case that the input begins with and the input after it, or None where it begins with no whole
// case. Any one byte that is no digit stands behind a number. A name that is no UTF-8 is told as `?`.
pub fn next_case(input: &[u8]) -> Option<(Case<'_>, &[u8])>
    ensures { IfSome result (λ found. length found.1.now < length input.now) }
{
    let (rows, rest) = number(input);
    let (length, rest) = number(rest.get(1..)?);
    let end = rest.iter().position(|byte| *byte == b'\n')?;
    let name = rest.get(1..end)?;
    let rest = &rest[end + 1..];
    if length >= rest.len() {
        return None;
    }
    let case = Case {
        rows,
        name: std::str::from_utf8(name).unwrap_or("?"),
        text: &rest[..length],
    };
    Some((case, &rest[length + 1..]))
}
