// What a trace is judged to be.

// Stays an enum of its own: users read it by these words, none or found.
#[derive(Clone, Copy, Debug, PartialEq, Eq)]
pub enum Verdict {
    // no consistent run violates
    None,
    // some consistent run does
    Found,
}

// The verdict, and how many pairs can be reached.
#[derive(Clone, Copy, Debug, PartialEq, Eq)]
pub struct Judgement {
    pub verdict: Verdict,
    pub pairs: usize,
}
