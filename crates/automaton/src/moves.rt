// The step of an automaton, by one pass over its arcs.
ghost use Rattle.std.specs.Prelude.{◌≡◌, ℕ, ◌%◌, ◌^◌, ◌<◌, ◌&&◌, ◌==◌};
ghost use Rattle.std.specs.List.{list_any};
ghost use Rattle.codes.specs.Codes.{bit_of};
ghost use Rattle.automaton.specs.Moves.{leaving, stepped};
ghost use Rattle.automaton.specs.Runs.{StepTells, OnlyStates};

use crate::arc::Arc;
use crate::automaton::Automaton;
use codes::{has, only};
use events::Action;

// The states that are left by a matching arc, and those that such arcs lead to.
#[derive(Clone, Copy)]
pub(crate) struct Turn {
    pub(crate) left: u64,
    pub(crate) reached: u64,
}

impl<'a> Automaton<'a> {
    // The code after the action: a state of the code moves to the targets of all its matching arcs, or
    // stays if none match; the bad state stays. Bits of no state are ignored and cleared.
    // Stays two parameters: the code is the monitor's, the action the trace's.
    pub fn next(&self, code: u64, action: Action) -> u64
        ensures code { result ≡ stepped self.now.states self.now.bad self.now.arcs.now code action }
        ensures rule { StepTells self.now code action result }
        ensures cleared { OnlyStates self.now result }
    {
        let here = below(code, self.states);
        let turn = self.turned(here, action);
        below(here ^ turn.left | turn.reached, self.states)
    }

    // Whether a state of the code leaves by the arc. The bad state never does.
    fn leaves_by(&self, arc: &Arc, code: u64, action: Action) -> bool
        ensures { result ≡ leaving self.now.bad code action arc.now }
    {
        arc.from != self.bad && has(code, arc.from) && arc.matches(action)
    }

    // The states that the arcs move, and where to, by one pass over them.
    fn turned(&self, code: u64, action: Action) -> Turn
        ensures left { (s : ℕ) → s < 64 → bit_of result.left s ≡ list_any (λ arc. leaving self.now.bad code action arc && s == arc.from) self.now.arcs.now }
        ensures reached { (s : ℕ) → s < 64 → bit_of result.reached s ≡ list_any (λ arc. leaving self.now.bad code action arc && s == arc.to) self.now.arcs.now }
    {
        let mut left = 0;
        let mut reached = 0;
        for arc in self.arcs {
            if self.leaves_by(arc, code, action) {
                left |= only(arc.from);
                reached |= only(arc.to);
            }
        }
        Turn { left, reached }
    }
}

// The code with its lowest bits alone, as many as are asked for.
fn below(code: u64, bits: u8) -> u64
    requires { bits < 64 }
    ensures { result ≡ code % 2 ^ bits }
{
    code & (only(bits) - 1)
}
