// Arcs of an automaton.
ghost use Rattle.std.specs.Prelude.{◌≡◌};
ghost use Rattle.automaton.specs.Arcs.{matching};
ghost use Rattle.automaton.specs.Made.{outside};

use crate::comparison::Comparison;
use events::{Action, Kind};

// A way from a state to a state, under the actions that match it: those of its kind and subject whose
// value compares with the constant. The comparison is 0 equal, 1 less, 2 greater or 3 any.
// Stays with numbers: the kind and the comparison, since a caller may give any number, and one that is
// too high is refused.
#[derive(Clone, Copy, Debug, PartialEq, Eq)]
pub struct Arc {
    pub from: u8,
    pub kind: u8,
    pub subject: u8,
    pub comparison: u8,
    pub constant: i32,
    pub to: u8,
}

impl Arc {
    pub fn matches(&self, action: Action) -> bool
        ensures { result ≡ matching action self.now }
    {
        self.kind == action.kind
            && self.subject == action.subject
            && Comparison::try_from(self.comparison)
                .unwrap_or(Comparison::Any)
                .holds(action.value, self.constant)
    }

    // Whether no automaton of so many states can have the arc.
    pub(crate) fn is_outside(&self, states: u8) -> bool
        ensures { result ≡ outside states self.now }
    {
        self.from >= states
            || self.to >= states
            || Kind::try_from(self.kind).is_err()
            || Comparison::try_from(self.comparison).is_err()
    }
}
