// What is proved of judgements. The function computes nothing: its contract is the theorem.
ghost use Rattle.judge.specs.Laws.{JudgedOnce};

// What judging answers and leaves is fixed by the trace, the monitor and what was lent.
pub fn judged_once()
    ensures { JudgedOnce }
{}
