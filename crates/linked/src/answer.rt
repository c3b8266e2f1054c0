// What the predictor says, in numbers that a C program can read.
ghost use Rattle.std.specs.Prelude.{◌≡◌};
ghost use Rattle.linked.specs.Answers.{answer_of, fault_answer, outcome_of, prediction_answer, stop_answer};

use judge::Verdict;
use predictor::{Fault, Prediction, Stop};

// How a call ends, by its number in C.
#[derive(Clone, Copy, Debug, PartialEq, Eq)]
pub enum Outcome {
    // no order of the events breaks the rule
    None = 0,
    // some order does, and the thread list begins with the least one
    Found = 1,
    // the recording has a fault, or the rows do not suffice
    Fault = 2,
    // memory ran out
    Memory = 3,
}

// The outcome; the pairs and events of a verdict; and the number, line and column of a fault. What
// an outcome does not have is 0.
// Stays a number: a C program reads the outcome.
#[repr(C)]
#[derive(Clone, Copy, Debug, PartialEq, Eq)]
pub struct Answer {
    pub outcome: u8,
    pub number: u8,
    pub line: usize,
    pub column: usize,
    pub pairs: usize,
    pub events: usize,
}

impl Answer {
    // What an answer has where its outcome does not say more.
    const NOTHING: Answer = Answer {
        outcome: Outcome::None as u8,
        number: 0,
        line: 0,
        column: 0,
        pairs: 0,
        events: 0,
    };

    pub const MEMORY: Answer = Answer {
        outcome: Outcome::Memory as u8,
        ..Answer::NOTHING
    };
}

impl From<Verdict> for Outcome {
    ghost from_gives = { λ verdict r. r ≡ outcome_of verdict };

    fn from(verdict: Verdict) -> Outcome {
        match verdict {
            Verdict::None => Outcome::None,
            Verdict::Found => Outcome::Found,
        }
    }
}

impl From<Prediction> for Answer {
    ghost from_gives = { λ prediction r. r ≡ prediction_answer prediction };

    fn from(prediction: Prediction) -> Answer {
        Answer {
            outcome: Outcome::from(prediction.verdict) as u8,
            pairs: prediction.pairs,
            events: prediction.events,
            ..Answer::NOTHING
        }
    }
}

impl From<Fault> for Answer {
    ghost from_gives = { λ fault r. r ≡ fault_answer fault };

    fn from(fault: Fault) -> Answer {
        let place = fault.place();
        Answer {
            outcome: Outcome::Fault as u8,
            number: fault.number(),
            line: place.line,
            column: place.column,
            ..Answer::NOTHING
        }
    }
}

impl From<Stop> for Answer {
    ghost from_gives = { λ stop r. r ≡ stop_answer stop };

    fn from(stop: Stop) -> Answer {
        match stop {
            Stop::Faulty(fault) => Answer::from(fault),
            Stop::Memory => Answer::MEMORY,
        }
    }
}

// What is said of a prediction, or of what stopped it.
impl From<Result<Prediction, Stop>> for Answer {
    ghost from_gives = { λ predicted r. r ≡ answer_of predicted };

    fn from(predicted: Result<Prediction, Stop>) -> Answer {
        match predicted {
            Ok(prediction) => Answer::from(prediction),
            Err(stop) => Answer::from(stop),
        }
    }
}
