// Where an automaton can be after a run.
ghost use Rattle.std.specs.Prelude.{Decides};
ghost use Rattle.automaton.specs.Runs.{CanBeIn, BitsTell, BadTells};

use crate::automaton::Automaton;
use codes::has;
use events::Action;
use monitor::run;

impl<'a> Automaton<'a> {
    // Whether some path of moves leads from the start state to this state, action by action.
    #[tactic(auto, using(crate::proofs::Ways::bits_tell, crate::proofs::Ways::bad_tells))]
    pub fn can_be(&self, actions: &[Action], state: u8) -> bool
        ensures answer { Decides result (CanBeIn self.now actions.now state) }
        ensures bits { BitsTell self.now actions.now }
        ensures violates { BadTells self.now actions.now }
    {
        let end = run(self, actions);
        state < self.states && has(end.code, state)
    }
}
