// A monitor that is one of two others, so that one list can hold monitors of several kinds.
ghost use Rattle.monitor.specs.Either.{either};

use crate::monitor::Monitor;
use events::Action;

// Stays an enum of its own, and no `dyn Monitor`: no crate of the kit but its library stands under
// this one, and a list knows the two kinds that it holds.
#[derive(Clone, Copy)]
pub enum Either<L, R> {
    Left(L),
    Right(R),
}

impl<L: Monitor, R: Monitor> Monitor for Either<L, R> {
    ghost meaning = { either L.Monitor.meaning R.Monitor.meaning };

    fn start(&self) -> u64 {
        match self {
            Either::Left(l) => l.start(),
            Either::Right(r) => r.start(),
        }
    }

    // Stays two parameters: the code is the monitor's, the action the trace's.
    fn step(&self, code: u64, action: Action) -> u64 {
        match self {
            Either::Left(l) => l.step(code, action),
            Either::Right(r) => r.step(code, action),
        }
    }

    fn bad(&self, code: u64) -> bool {
        match self {
            Either::Left(l) => l.bad(code),
            Either::Right(r) => r.bad(code),
        }
    }
}
