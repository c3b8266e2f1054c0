// Reads a recording from standard input and prints what the predictor says of it.
#![tactic(auto)]

use events::Event;
use judge::{SearchRow, Verdict};
use predictor::{Prediction, Stop};
use std::io::Read;
use std::process::ExitCode;
use std::{fmt, io};

// One byte more than a text may have, by which a longer one is known.
const MOST_READ: u64 = text::LONGEST as u64 + 1;

// Why the program ends with status 1.
#[derive(Drop)]
pub enum Ended {
    Io(io::Error),
    Stopped(Stop),
}

impl From<io::Error> for Ended {
    fn from(e: io::Error) -> Ended {
        Ended::Io(e)
    }
}

impl From<Stop> for Ended {
    fn from(stop: Stop) -> Ended {
        Ended::Stopped(stop)
    }
}

// What is said of a recording, with the threads of the first order that breaks its rule in front of
// the thread list, if one does.
#[derive(Clone, Copy)]
struct Report<'a> {
    prediction: Prediction,
    threads: &'a [u8],
}

// The verdict, the number of pairs and, where an order of the events breaks the rule, the threads
// of the first such order.
// Stays here: what trials prints of a verdict has other words, and only the loop over threads is shared.
impl<'a> fmt::Display for Report<'a> {
    fn fmt<W: fmt::Write>(&self, f: &mut fmt::Formatter<W>) -> fmt::Result {
        let Prediction {
            verdict,
            pairs,
            events,
        } = self.prediction;
        match verdict {
            Verdict::None => write!(f, "(verdict none)\n(pairs {pairs})"),
            Verdict::Found => {
                write!(f, "(verdict found)\n(pairs {pairs})\n(run")?;
                for thread in self.threads.iter().take(events) {
                    write!(f, " {thread}")?;
                }
                write!(f, ")")
            }
        }
    }
}

// Reads the recording, and prints what is said of it.
fn answer(rt: &(impl Input + Print + AllocGlobal)) -> Result<(), Ended> {
    let mut rows = [Event::BLANK; 1024];
    let mut pairs = [SearchRow::BLANK; 2048];
    let mut threads = [0u8; 1024];
    let mut text = Vec::new(rt.alloc());
    rt.reader().take(MOST_READ).read_to_end(&mut text)?;
    let prediction = predictor::predict(rt.alloc(), &text, &mut rows, &mut pairs, &mut threads)?;
    let report = Report {
        prediction,
        threads: &threads,
    };
    println!(rt; "{report}")?;
    Ok(())
}

// Says why there is no verdict: the recording's fault, or no memory. Nothing is said of a failed
// read or write.
fn explain(rt: &(impl Print + Eprint), ended: Ended) -> io::Result<()> {
    match ended {
        Ended::Stopped(Stop::Faulty(fault)) => println!(rt; "{fault}"),
        Ended::Stopped(Stop::Memory) => eprintln!(rt; "out of memory"),
        Ended::Io(e) => Err(e),
    }
}

// Status 0 after a verdict; 1 after a fault, without memory, and after a failed read or write.
fn main(rt: HostRuntime) -> ExitCode {
    match answer(&rt) {
        Ok(()) => ExitCode::SUCCESS,
        Err(ended) => {
            let _ = explain(&rt, ended);
            ExitCode::FAILURE
        }
    }
}
