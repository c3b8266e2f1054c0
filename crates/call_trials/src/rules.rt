// Each operator's truth after each event of one run.
use crate::given::action;
use events::{Action, Event};
use formula::Formula;
use monitor::Monitor;
use std::io;
use trace::Trace;

// Labels 1 and 2, writes of variable 0, and a read of another value than was written, which no
// trace has: comparisons follow writes alone.
fn run() -> [Action; 8] {
    [
        action(0, 0, 2, 0),
        action(0, 0, 1, 0),
        action(1, 2, 0, 4),
        action(0, 0, 1, 0),
        action(1, 1, 0, 9),
        action(0, 2, 0, 7),
        action(1, 0, 2, 0),
        action(1, 2, 0, 4),
    ]
}

// The rule's truth after each event, 1 or 0, and then whether the code is bad.
fn say(rt: &impl Print, rule: &str) -> io::Result<()> {
    let mut rows = [Event::BLANK; 1];
    let trace = Trace::open(2, &[4], &mut rows);
    match Formula::make(&trace, rule.as_bytes()) {
        Ok(formula) => {
            print!(rt; "{rule}:")?;
            let mut code = formula.start();
            for action in run() {
                code = formula.step(code, action);
                print!(rt; " {}", code & 1)?;
            }
            let end = if formula.bad(code) { "broken" } else { "kept" };
            println!(rt; " {end}")
        }
        Err(fault) => println!(rt; "{rule}: {}", fault.number()),
    }
}

pub fn operators(rt: &impl Print) -> io::Result<()> {
    for rule in [
        "(eq 0 4)",
        "(lt 0 5)",
        "(gt 0 5)",
        "(mark 1)",
        "(by 1)",
        "(not (by 1))",
        "(and (by 1) (eq 0 4))",
        "(or (mark 1) (gt 0 5))",
        "(implies (by 1) (eq 0 4))",
        "(before (mark 1))",
        "(once (mark 1))",
        "(always (eq 0 4))",
        "(since (eq 0 4) (mark 1))",
        "(since (not (mark 2)) (by 1))",
        "(or (by 0) (by 1))",
        "(mark 32)",
    ] {
        say(rt, rule)?;
    }
    Ok(())
}
