// A monitor that is lent watches as the one behind the reference.
use crate::monitor::Monitor;
use events::Action;

impl<'a, M: Monitor> Monitor for &'a M {
    ghost meaning = { λ lent. M.Monitor.meaning lent.now };

    fn start(&self) -> u64 {
        (**self).start()
    }

    // Stays two parameters, as in the trait.
    fn step(&self, code: u64, action: Action) -> u64 {
        (**self).step(code, action)
    }

    fn bad(&self, code: u64) -> bool {
        (**self).bad(code)
    }
}
