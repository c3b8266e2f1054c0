// What the codes of a formula say of a run.
ghost use Rattle.formula.specs.Theorem.{AllWatch};

// After every event of every run, bit i of a formula's code is the truth of its subformula i, and
// the code is bad exactly when the formula was false after some event of the run.
#[tactic(auto, using(crate::proofs::Stands::all_watch))]
pub fn codes_are_truths()
    ensures { AllWatch }
{}
