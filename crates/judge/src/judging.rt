// The call that judges.
ghost use Rattle.std.specs.Prelude.{◌≡◌};
ghost use Rattle.events.specs.First.{first_fit, told};
ghost use Rattle.trace.specs.Meaning.{opening_of, noted_of};
ghost use Rattle.judge.specs.Judging.{judge_tests, Judged};
ghost use Rattle.judge.specs.Said.{SaysNone, SaysFound};

use crate::decide::decide;
use crate::machine::PairMachine;
use crate::refusal::JudgeRefusal;
use crate::row::SearchRow;
use crate::verdict::Judgement;
use explore::explore;
use follow::Tables;
use monitor::Monitor;
use trace::Trace;

// Whether a trace is judged with so many rows and a thread list of this length, or why not.
fn granted(trace: &Trace, rows: usize, list: usize) -> Result<(), JudgeRefusal>
    ensures { result ≡ told (first_fit (judge_tests (opening_of trace.now) (noted_of trace.now) rows list)) }
{
    trace.opened().map_err(|_| JudgeRefusal::Void)?;
    if rows > 65536 {
        return Err(JudgeRefusal::Rows);
    }
    if list < trace.events().len() {
        return Err(JudgeRefusal::Threads);
    }
    Ok(())
}

// Judges a trace under a monitor: whether some consistent run violates. The rows take the pairs that
// can be reached. Where a run violates, the front of the thread list takes the least one, thread by
// thread.
pub fn judge<M: Monitor>(
    trace: &Trace,
    monitor: &M,
    rows: &mut [SearchRow],
    threads: &mut [u8],
) -> Result<Judgement, JudgeRefusal>
    ensures judged { Judged (opening_of trace.now) (noted_of trace.now) (M.Monitor.meaning monitor.now) rows.old threads.old result rows.new threads.new }
    ensures none { SaysNone (noted_of trace.now) (M.Monitor.meaning monitor.now) result }
    ensures found { SaysFound (noted_of trace.now) (M.Monitor.meaning monitor.now) result threads.new }
{
    granted(trace, rows.len(), threads.len())?;
    let events = trace.events();
    let tables = Tables::make(events);
    let machine = PairMachine {
        tables: &tables,
        monitor,
        threads: trace.threads(),
    };
    let pairs = explore(&machine, rows).map_err(|_| JudgeRefusal::Pairs)?;
    let verdict = decide(&rows[..pairs], monitor, events.len(), threads);
    Ok(Judgement { verdict, pairs })
}
