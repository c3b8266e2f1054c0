// Where reading stands in a text.
ghost use Rattle.std.specs.Prelude.{◌≡◌, ◌≤◌, length};
ghost use Rattle.text.specs.Places.{byte_place};

use crate::place::Place;

// The text, how many of its bytes are passed, and the place of the next one.
// Stays beside grammar's Cursor: that one keeps no places, since of a flaw it tells the byte alone.
#[derive(Clone, Copy)]
pub struct Reader<'a> {
    pub(crate) text: &'a [u8],
    pub(crate) at: usize,
    pub(crate) place: Place,
    ghost within: { at ≤ length text.now },
    ghost placed: { place ≡ byte_place text.now at },
}
