// A rule and an automaton for the same property agree on all runs of up to six events over a small
// alphabet: label 5 only after label 4.
ghost use Rattle.std.specs.Prelude.{◌≤◌};

use crate::given::{STEP, action};
use automaton::{Arc, Automaton};
use events::{Action, Event};
use formula::Formula;
use monitor::{Monitor, run};
use std::io;
use trace::Trace;

// The longest run.
const MOST: usize = 6;

// The number of actions in the alphabet.
const LETTERS: usize = 4;

// Labels 4, 5 and 6, and a write of 5 to variable 4.
fn letters() -> [Action; LETTERS] {
    [
        action(0, 0, 4, 5),
        action(0, 0, 5, 5),
        action(0, 0, 6, 5),
        action(0, 2, 4, 5),
    ]
}

// The run with this number: its letters are the number's digits, the first the lowest.
// Stays apart from the digits of the other test program: the two would need a library for six lines.
fn run_of(number: usize) -> [Action; MOST] {
    let letters = letters();
    let mut actions = [letters[0]; MOST];
    let mut rest = number;
    for action in &mut actions {
        *action = letters[rest % LETTERS];
        rest /= LETTERS;
    }
    actions
}

// How many of the runs of this length violate, and how many the two monitors differ on.
// Stays a range: the runs are known by their numbers.
fn compare<L: Monitor, R: Monitor>(left: &L, right: &R, length: usize) -> (usize, usize)
    requires { length ≤ 6 }
{
    let runs = LETTERS.saturating_pow(length as u32);
    let mut violating = 0usize;
    let mut differing = 0usize;
    for number in 0..runs {
        let actions = run_of(number);
        let l = run(left, &actions[..length]).violated;
        let r = run(right, &actions[..length]).violated;
        violating = violating.saturating_add(usize::from(l));
        differing = differing.saturating_add(usize::from(l != r));
    }
    (violating, differing)
}

pub fn agreement(rt: &impl Print) -> io::Result<()> {
    let mut rows = [Event::BLANK; 1];
    let trace = Trace::open(1, &[], &mut rows);
    let Ok(formula) = Formula::make(&trace, b"(implies (mark 5) (once (mark 4)))") else {
        return println!(rt; "no rule");
    };
    let arcs = [Arc { subject: 4, ..STEP }, Arc { to: 2, ..STEP }];
    let Ok(automaton) = Automaton::new(3, 0, 2, &arcs) else {
        return println!(rt; "no automaton");
    };
    // Stays a range: lengths are numbers, and no places.
    for length in 0..=MOST {
        let (violating, differing) = compare(&formula, &automaton, length);
        println!(rt; "runs of {length}: {violating} violate, {differing} differ")?;
    }
    Ok(())
}
