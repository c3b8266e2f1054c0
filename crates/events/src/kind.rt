// Kinds of events, and their numbers.
ghost use Rattle.std.specs.Prelude.{◌≡◌};
ghost use Rattle.events.specs.Kinds.{kind_number, kind_with};

#[derive(Clone, Copy, Debug, PartialEq, Eq)]
pub enum Kind {
    Internal = 0,
    Read = 1,
    Write = 2,
    Acquire = 3,
    Release = 4,
}

// A number that is no kind's.
#[derive(Clone, Copy, Debug, PartialEq, Eq)]
pub struct NoKind;

// The kind's number.
impl From<Kind> for u8 {
    ghost from_gives = { λ kind number. number ≡ kind_number kind };

    fn from(kind: Kind) -> u8 {
        kind as u8
    }
}

// The kind with this number, if there is one.
impl TryFrom<u8> for Kind {
    type Error = NoKind;

    ghost try_from_gives = { λ number kind. kind ≡ kind_with number };

    fn try_from(number: u8) -> Result<Kind, NoKind> {
        match number {
            0 => Ok(Kind::Internal),
            1 => Ok(Kind::Read),
            2 => Ok(Kind::Write),
            3 => Ok(Kind::Acquire),
            4 => Ok(Kind::Release),
            _ => Err(NoKind),
        }
    }
}
