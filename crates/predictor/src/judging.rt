// A noted trace, judged by the rule of its recording.
ghost use Rattle.trace.specs.Meaning.{opening_of, noted_of};
ghost use Rattle.predictor.specs.Ruled.{Ruled};

use crate::fault::Fault;
use formula::Formula;
use judge::{Judgement, SearchRow};
use text::Recording;
use trace::Trace;

// Makes the rule, and judges the trace by it. The rule's fault counts from where the rule begins.
pub(crate) fn judge_rule(
    trace: &Trace,
    recording: &Recording,
    pairs: &mut [SearchRow],
    threads: &mut [u8],
) -> Result<Judgement, Fault>
    ensures { Ruled (opening_of trace.now) (noted_of trace.now) recording.now.rule.now recording.now.rule_place pairs.old threads.old result pairs.new threads.new }
{
    let start = recording.rule_place;
    let formula = Formula::make(trace, recording.rule).map_err(|cause| Fault::Rule(cause, start))?;
    Ok(judge::judge(trace, &formula, pairs, threads)?)
}
