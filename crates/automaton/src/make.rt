// Making automata.
ghost use Rattle.automaton.specs.Exact.{NewTells, ExactIfMade};

use crate::arc::Arc;
use crate::automaton::Automaton;
use crate::fault::AutomatonFault;

impl<'a> Automaton<'a> {
    // The automaton of these, or the first reason why there is none.
    pub fn new(
        states: u8,
        start: u8,
        bad: u8,
        arcs: &'a [Arc],
    ) -> Result<Automaton<'a>, AutomatonFault>
        ensures answer { NewTells states start bad arcs.now result }
        ensures exact { ExactIfMade result }
    {
        if states == 0 || states > 32 {
            return Err(AutomatonFault::States);
        }
        if start >= states || bad >= states {
            return Err(AutomatonFault::StartOrBad);
        }
        if arcs.iter().any(|arc| arc.is_outside(states)) {
            return Err(AutomatonFault::Arcs);
        }
        Ok(Automaton {
            states,
            start,
            bad,
            arcs,
        })
    }
}
