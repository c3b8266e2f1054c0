// Runs of a monitor.
ghost use Rattle.std.specs.Prelude.{◌≡◌, Decides};
ghost use Rattle.monitor.specs.Meaning.{ran, Violates};

use crate::monitor::Monitor;
use events::Action;

// What a monitor says of a run: the code at its end, and whether the run violates.
// Stays a number beside a flag: a replay gives both, whether the run violates or not.
#[derive(Clone, Copy, Debug, PartialEq, Eq)]
pub struct Verdict {
    pub code: u64,
    pub violated: bool,
}

// Steps the monitor through the actions. Since a bad code stays bad, the code at the end tells
// whether any was bad.
pub fn run<M: Monitor>(monitor: &M, actions: &[Action]) -> Verdict
    ensures code { result.code ≡ ran (M.Monitor.meaning monitor.now) actions.now }
    ensures violated { Decides result.violated (Violates (M.Monitor.meaning monitor.now) actions.now) }
    ensures tells { Decides ((M.Monitor.meaning monitor.now).bad result.code) (Violates (M.Monitor.meaning monitor.now) actions.now) }
{
    let mut code = monitor.start();
    for action in actions {
        code = monitor.step(code, *action);
    }
    Verdict {
        code,
        violated: monitor.bad(code),
    }
}
