// Where reading stands in a text.
ghost use Rattle.std.specs.Prelude.{◌≤◌, length};

// The text, and how many of its bytes are read.
#[derive(Clone, Copy)]
pub(crate) struct Cursor<'a> {
    pub(crate) text: &'a [u8],
    pub(crate) at: usize,
    ghost within: { at ≤ length text.now },
}
