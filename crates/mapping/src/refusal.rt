// The reasons for which maps are refused.
ghost use Rattle.std.specs.Prelude.{◌≡◌};
ghost use Rattle.mapping.specs.Numbers.{map_number};

// Why no map is written.
#[derive(Clone, Copy, Debug, PartialEq, Eq)]
pub enum MapRefusal {
    // the trace is void
    Void = 9,
    // fewer map rows than events
    Rows = 41,
}

impl MapRefusal {
    // The number by which users know the reason. Stays a method, as at every fault: each is asked for
    // its number in one way.
    pub fn number(self) -> u8
        ensures { result ≡ map_number self }
    {
        self as u8
    }
}
