// What a call says, as it is printed: what it gave, or the number of its refusal.
use events::Refusal;
use judge::{JudgeRefusal, Judgement};
use mapping::MapRefusal;
use monitor::Verdict;
use replay::ReplayRefusal;
use std::{fmt, io};

// Stays with numbers for refusals: what is printed of a refusal is its number.
#[derive(Clone, Copy)]
pub enum Said {
    Place(u8),
    Rows(usize),
    Code(u64),
    Pairs(usize),
    Refused(u8),
    RefusedAt(u8, usize),
}

impl fmt::Display for Said {
    fn fmt<W: fmt::Write>(&self, f: &mut fmt::Formatter<W>) -> fmt::Result {
        match self {
            Said::Place(place) => write!(f, "place {place}"),
            Said::Rows(rows) => write!(f, "{rows} rows"),
            Said::Code(code) => write!(f, "code {code}"),
            Said::Pairs(pairs) => write!(f, "{pairs} pairs"),
            Said::Refused(number) => write!(f, "{number}"),
            Said::RefusedAt(number, position) => write!(f, "{number} at {position}"),
        }
    }
}

// Stays four conversions with a like arm: a refusal's number is a method of each, and of no trait.
impl From<Result<u8, Refusal>> for Said {
    fn from(answer: Result<u8, Refusal>) -> Said {
        match answer {
            Ok(place) => Said::Place(place),
            Err(why) => Said::Refused(why.number()),
        }
    }
}

impl From<Result<usize, MapRefusal>> for Said {
    fn from(answer: Result<usize, MapRefusal>) -> Said {
        match answer {
            Ok(rows) => Said::Rows(rows),
            Err(why) => Said::Refused(why.number()),
        }
    }
}

impl From<Result<Verdict, ReplayRefusal>> for Said {
    fn from(answer: Result<Verdict, ReplayRefusal>) -> Said {
        match answer {
            Ok(verdict) => Said::Code(verdict.code),
            Err(why) => Said::RefusedAt(why.number(), why.position()),
        }
    }
}

impl From<Result<Judgement, JudgeRefusal>> for Said {
    fn from(answer: Result<Judgement, JudgeRefusal>) -> Said {
        match answer {
            Ok(judgement) => Said::Pairs(judgement.pairs),
            Err(why) => Said::Refused(why.number()),
        }
    }
}

// Prints what a call says.
pub fn say<A>(rt: &impl Print, call: &str, answer: A) -> io::Result<()>
where
    Said: From<A>,
{
    let said = Said::from(answer);
    println!(rt; "{call}: {said}")
}
