// What holds of the cuts that paths reach. Each function stands for the theorem in its contract.
ghost use Rattle.follow.specs.Balance.{BalanceLaw};
ghost use Rattle.follow.specs.Answers.{OneAnswer};

// What is led into a cut is taken or waits.
pub fn balance()
    ensures { BalanceLaw }
{}

// At most one answer is right, so each is given exactly when it is.
#[tactic(auto, using(crate::proofs::Single::one_answer))]
pub fn one_answer()
    ensures { OneAnswer }
{}
