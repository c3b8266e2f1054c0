// Why no automaton is made, and the numbers by which users know the reasons.
ghost use Rattle.std.specs.Prelude.{◌≡◌};
ghost use Rattle.automaton.specs.Made.{fault_number};

#[derive(Clone, Copy, Debug, PartialEq, Eq)]
pub enum AutomatonFault {
    // not 1 to 32 states
    States = 75,
    // the start state or the bad state is not below the state count
    StartOrBad = 76,
    // an arc's from or to is not below the state count, its kind is over 4 or its comparison over 3
    Arcs = 77,
}

impl AutomatonFault {
    // Stays a method, as at every fault: those that hold a place or a cause give up more by their
    // number than a From may.
    pub fn number(self) -> u8
        ensures { result ≡ fault_number self }
    {
        self as u8
    }
}
