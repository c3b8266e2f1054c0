// Places in a text.
ghost use Rattle.std.specs.Prelude.{◌≡◌, ◌+◌, ◌<◌};
ghost use Rattle.text.specs.Places.{past};

// The line and the column of a byte, both from 1. A byte 10 ends its line.
#[derive(Clone, Copy, Debug, PartialEq, Eq)]
pub struct Place {
    pub line: usize,
    pub column: usize,
}

impl Place {
    // The place of a text's first byte.
    pub const START: Place = Place { line: 1, column: 1 };

    // The place behind a byte.
    pub(crate) fn past(self, byte: u8) -> Place
        requires line_bound { self.line + 1 < 18446744073709551616 }
        requires column_bound { self.column + 1 < 18446744073709551616 }
        ensures { result ≡ past self byte }
    {
        match byte {
            b'\n' => Place {
                line: self.line + 1,
                column: 1,
            },
            _ => Place {
                column: self.column + 1,
                ..self
            },
        }
    }
}
