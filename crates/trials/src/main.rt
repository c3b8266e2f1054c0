// Runs the predictor on each case of standard input, and prints what it says.
#![tactic(auto)]

mod cases;
mod small;
#[cfg(test)]
mod tests;

use cases::{Case, next_case};
use events::Event;
use judge::{SearchRow, Verdict};
use predictor::{Prediction, Stop};
use small::{Digests, look};
use std::io::Read;
use std::{fmt, io};
use trace::Trace;

// More input than the cases have.
const LARGEST: u64 = 16777216;

// A small trace through its other calls.
fn looked_at(rt: &impl AllocGlobal, text: &[u8], rows: &mut [Event]) -> Option<Digests> {
    let recording = text::read(rt.alloc(), text).ok()?;
    let mut trace = Trace::open(recording.threads, &recording.starts, rows);
    look(&mut trace, &recording)
}

// A verdict with its pairs and, where an order breaks the rule, the threads of that order.
// Stays apart from what the program prints: the two have other words and signs.
#[derive(Clone, Copy)]
struct Told<'a> {
    prediction: Prediction,
    threads: &'a [u8],
}

impl<'a> fmt::Display for Told<'a> {
    fn fmt<W: fmt::Write>(&self, f: &mut fmt::Formatter<W>) -> fmt::Result {
        let Prediction {
            verdict,
            pairs,
            events,
        } = self.prediction;
        match verdict {
            Verdict::None => write!(f, "none {pairs}"),
            Verdict::Found => {
                write!(f, "found {pairs}")?;
                for thread in self.threads.iter().take(events) {
                    write!(f, " {thread}")?;
                }
                Ok(())
            }
        }
    }
}

// What is printed of a case.
fn say(
    rt: &(impl Print + AllocGlobal),
    case: Case,
    rows: &mut [Event],
    pairs: &mut [SearchRow],
    threads: &mut [u8],
) -> io::Result<()> {
    let name = case.name;
    let count = case.rows.min(rows.len());
    match predictor::predict(rt.alloc(), case.text, &mut rows[0..count], pairs, threads) {
        Ok(prediction) => {
            println!(rt;
                "{name}: {}",
                Told {
                    prediction,
                    threads
                }
            )?;
            if let Some(digests) = looked_at(rt, case.text, &mut rows[0..count]) {
                println!(rt; "{name}: {digests}")?;
            }
            Ok(())
        }
        Err(Stop::Faulty(fault)) => println!(rt; "{name}: {fault}"),
        Err(Stop::Memory) => println!(rt; "{name}: out of memory"),
    }
}

fn main(rt: HostRuntime) -> io::Result<()> {
    let mut rows = [Event::BLANK; 1025];
    let mut pairs = [SearchRow::BLANK; 2048];
    let mut threads = [0u8; 1024];
    let mut input = Vec::new(rt.alloc());
    rt.stdin().take(LARGEST).read_to_end(&mut input)?;
    let mut rest = input.as_slice();
    // Stays a while: an iterator of cases would be a struct and an impl for this one pass.
    while let Some((case, after)) = next_case(rest) {
        say(&rt, case, &mut rows, &mut pairs, &mut threads)?;
        rest = after;
    }
    Ok(())
}
