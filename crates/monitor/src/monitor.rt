// The trait of monitors.
ghost use Rattle.std.specs.Prelude.{◌≡◌};
ghost use Rattle.monitor.specs.Meaning.{Meaning};

use events::Action;

// Every answer depends only on the monitor and on what is passed in. The meaning holds the law that
// a bad code stays bad.
pub trait Monitor {
    ghost meaning: { Self → Meaning };

    // The code that a run begins with.
    fn start(&self) -> u64
        ensures { result ≡ (meaning self.now).start };

    // The code after the action, where it was `code` before it.
    // Stays two parameters: the code is the monitor's, the action the trace's.
    fn step(&self, code: u64, action: Action) -> u64
        ensures { result ≡ (meaning self.now).step code action };

    fn bad(&self, code: u64) -> bool
        ensures { result ≡ (meaning self.now).bad code };
}
