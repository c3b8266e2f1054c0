// The engine of a replay: each step is a few look-ups.
ghost use Rattle.std.specs.Prelude.{List};
ghost use Rattle.events.specs.declared.event.Event.{Event};
ghost use Rattle.follow.specs.Balance.{ThreadsBelow};
ghost use Rattle.follow.specs.Made.{MadeOf};
ghost use Rattle.replay.specs.Outcome.{Outcome};

use crate::refusal::ReplayRefusal;
use follow::Tables;
use monitor::{Monitor, Verdict};

// Takes the threads' next events one by one, and steps the monitor through them.
pub fn replay<M: Monitor>(
    tables: &Tables,
    count: u8,
    threads: &[u8],
    monitor: &M,
) -> Result<Verdict, ReplayRefusal>
    ensures { (es : List Event) → MadeOf es tables.now → ThreadsBelow es count → Outcome (M.Monitor.meaning monitor.now) es count threads.now result }
{
    if threads.len() != tables.total() {
        return Err(ReplayRefusal::Length);
    }
    let mut cut = [0u8; 8];
    let mut code = monitor.start();
    for (k, &thread) in threads.iter().enumerate() {
        if thread >= count {
            return Err(ReplayRefusal::Thread(k + 1));
        }
        // Stays beside the judge's step, which is the same: no crate that both rest on knows tables and
        // codes.
        let event = tables
            .next(cut, thread)
            .map_err(|why| ReplayRefusal::of(why, k + 1))?;
        code = monitor.step(code, event.action());
        cut[thread as usize] = event.place;
    }
    let violated = monitor.bad(code);
    Ok(Verdict { code, violated })
}
