// How a value has to compare with the constant of an arc.
ghost use Rattle.std.specs.Prelude.{◌≡◌};
ghost use Rattle.automaton.specs.Arcs.{comparison_with, holds};

#[derive(Clone, Copy, Debug, PartialEq, Eq)]
pub enum Comparison {
    Equal,
    Less,
    Greater,
    // whatever the value
    Any,
}

// A number that is no comparison's.
#[derive(Clone, Copy, Debug, PartialEq, Eq)]
pub struct NoComparison;

// The comparison with this number, if there is one: 0 equal, 1 less, 2 greater and 3 any.
impl TryFrom<u8> for Comparison {
    type Error = NoComparison;

    ghost try_from_gives = { λ number comparison. comparison ≡ comparison_with number };

    fn try_from(number: u8) -> Result<Comparison, NoComparison> {
        match number {
            0 => Ok(Comparison::Equal),
            1 => Ok(Comparison::Less),
            2 => Ok(Comparison::Greater),
            3 => Ok(Comparison::Any),
            _ => Err(NoComparison),
        }
    }
}

impl Comparison {
    // Whether the value compares so with the constant.
    pub fn holds(self, value: i32, constant: i32) -> bool
        ensures { result ≡ holds self value constant }
    {
        match self {
            Comparison::Equal => value == constant,
            Comparison::Less => value < constant,
            Comparison::Greater => value > constant,
            Comparison::Any => true,
        }
    }
}
