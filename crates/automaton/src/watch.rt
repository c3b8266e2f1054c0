// An automaton as a monitor.
ghost use Rattle.automaton.specs.Meant.{meant};

use crate::automaton::Automaton;
use codes::{has, only};
use events::Action;
use monitor::Monitor;

impl<'a> Monitor for Automaton<'a> {
    ghost meaning = { meant };

    fn start(&self) -> u64 {
        only(self.start)
    }

    // Stays two parameters, as in the trait.
    fn step(&self, code: u64, action: Action) -> u64 {
        self.next(code, action)
    }

    fn bad(&self, code: u64) -> bool {
        has(code, self.bad)
    }
}
