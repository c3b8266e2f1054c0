// What holds of the outcomes of replays. The function stands for the theorem in its contract.
ghost use Rattle.replay.specs.Outcome.{OneOutcome};

// At most one outcome is right: one verdict, or one first refusal.
#[tactic(auto, using(crate::proofs::One::one_outcome))]
pub fn one_outcome()
    ensures { OneOutcome }
{}
