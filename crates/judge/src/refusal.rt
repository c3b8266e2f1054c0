// The reasons for which judgements are refused.
ghost use Rattle.std.specs.Prelude.{◌≡◌};
ghost use Rattle.judge.specs.Numbers.{judge_number};

// Why a trace is not judged.
#[derive(Clone, Copy, Debug, PartialEq, Eq)]
pub enum JudgeRefusal {
    // the trace is void
    Void = 9,
    // more than 65,536 rows are lent
    Rows = 20,
    // the thread list is shorter than the list of events
    Threads = 21,
    // there are more pairs than rows
    Pairs = 22,
}

impl JudgeRefusal {
    // The number by which users know the reason. Stays a method, as at every fault: each is asked for
    // its number in one way.
    pub fn number(self) -> u8
        ensures { result ≡ judge_number self }
    {
        self as u8
    }
}
