// Refusals of calls by their numbers, those among them that no recording can bring about.
use crate::given::{STEP, action};
use crate::said::say;
use automaton::{Arc, Automaton};
use calls::{judge, map, note, replay};
use events::Event;
use judge::SearchRow;
use monitor::Monitor;
use order::Row;
use std::io;
use trace::Trace;

// Events that are refused one by one, and those that are not.
pub fn notes(rt: &impl Print) -> io::Result<()> {
    let mut rows = [Event::BLANK; 4];
    let mut trace = Trace::open(2, &[5], &mut rows);
    let asked = [
        ("note thread 2 of 2", action(2, 9, 99, 1)),
        ("note kind 5", action(0, 5, 99, 1)),
        ("note label 32", action(0, 0, 32, 1)),
        ("note variable 1 of 1", action(0, 2, 1, 1)),
        ("note lock 16", action(0, 3, 16, 1)),
        ("note acquire with a value", action(0, 3, 0, 1)),
        ("note release with a value", action(0, 4, 0, -1)),
        ("note read of another value", action(1, 1, 0, 4)),
        ("note release of a free lock", action(1, 4, 0, 0)),
        ("note acquire", action(0, 3, 0, 0)),
        ("note acquire of a held lock", action(1, 3, 0, 0)),
        ("note release by another thread", action(1, 4, 0, 0)),
        ("note read", action(1, 1, 0, 5)),
        ("note write", action(1, 2, 0, 6)),
        ("note release", action(0, 4, 0, 0)),
        ("note held lock with no row left", action(0, 4, 0, 0)),
        ("note no row left", action(0, 0, 0, 0)),
    ];
    for (call, action) in asked {
        say(rt, call, note(&mut trace, action))?;
    }
    Ok(())
}

// A void trace refuses every call, and keeps its own number.
// Stays two parameters: what prints and what watches have nothing in common.
pub fn void_calls(rt: &impl Print, monitor: &impl Monitor) -> io::Result<()> {
    let mut rows = [Event::BLANK; 4];
    let mut trace = Trace::open(9, &[], &mut rows);
    let number = trace.number();
    println!(rt; "void: {number}")?;
    say(rt, "note void", note(&mut trace, action(9, 9, 99, 1)))?;
    let mut map_rows = [Row::BLANK; 1];
    say(rt, "map void", map(&trace, &mut map_rows))?;
    say(rt, "replay void", replay(&trace, &[], monitor))?;
    let mut pairs = [SearchRow::BLANK; 1];
    say(
        rt,
        "judge void",
        judge(&trace, monitor, &mut pairs, &mut []),
    )
}

// The trace in which thread 1 writes 3, and thread 0 writes 5 and reads it.
fn three(rows: &mut [Event]) -> Trace<'_> {
    let mut trace = Trace::open(2, &[0], rows);
    for action in [action(1, 2, 0, 3), action(0, 2, 0, 5), action(0, 1, 0, 5)] {
        let _ = note(&mut trace, action);
    }
    trace
}

// Maps into few rows and into enough, and lists of threads of which the last two are granted.
pub fn maps_and_replays(rt: &impl Print, monitor: &impl Monitor) -> io::Result<()> {
    let mut rows = [Event::BLANK; 4];
    let trace = three(&mut rows);
    let mut map_rows = [Row::BLANK; 4];
    say(rt, "map into 2 rows", map(&trace, &mut map_rows[..2]))?;
    say(rt, "map into 4 rows", map(&trace, &mut map_rows))?;
    let lists: [(&str, &[u8]); 6] = [
        ("replay 0 0", &[0, 0]),
        ("replay 0 2 0", &[0, 2, 0]),
        ("replay 1 1 0", &[1, 1, 0]),
        ("replay 0 1 0", &[0, 1, 0]),
        ("replay 1 0 0", &[1, 0, 0]),
        ("replay 0 0 1", &[0, 0, 1]),
    ];
    for (call, threads) in lists {
        say(rt, call, replay(&trace, threads, monitor))?;
    }
    passing(rt, monitor)
}

// Thread 1 reads what thread 0 wrote: it cannot begin.
fn passing(rt: &impl Print, monitor: &impl Monitor) -> io::Result<()> {
    let mut rows = [Event::BLANK; 4];
    let mut trace = Trace::open(2, &[0, 0], &mut rows);
    let _ = note(&mut trace, action(0, 2, 0, 7));
    let _ = note(&mut trace, action(1, 1, 0, 7));
    say(rt, "replay 1 0 of a read", replay(&trace, &[1, 0], monitor))
}

// Judges with so many rows and a list of so many threads.
pub fn judges(rt: &impl Print, monitor: &impl Monitor) -> io::Result<()> {
    let mut rows = [Event::BLANK; 4];
    let trace = three(&mut rows);
    let mut pairs = [SearchRow::BLANK; 65537];
    let mut threads = [9u8; 4];
    let lent = [
        ("judge with 65537 rows", 65537, 4),
        ("judge with 65536 rows", 65536, 4),
        ("judge with a list of 2", 9, 2),
        ("judge with no row", 0, 4),
        ("judge with 5 rows", 5, 4),
        ("judge with 6 rows", 6, 4),
    ];
    for (call, rows, list) in lent {
        pairs.fill(SearchRow::BLANK);
        threads.fill(9);
        say(
            rt,
            call,
            judge(&trace, monitor, &mut pairs[..rows], &mut threads[..list]),
        )?;
    }
    Ok(())
}

// Automata that are refused one by one, and one that is not.
pub fn automata(rt: &impl Print) -> io::Result<()> {
    let asked = [
        (0, 0, 0, STEP),
        (33, 40, 0, STEP),
        (32, 31, 32, STEP),
        (32, 31, 31, Arc { to: 32, ..STEP }),
        (32, 31, 31, Arc { kind: 5, ..STEP }),
        (
            32,
            31,
            31,
            Arc {
                comparison: 4,
                ..STEP
            },
        ),
        (32, 31, 31, STEP),
    ];
    for (states, start, bad, arc) in asked {
        match Automaton::new(states, start, bad, &[arc]) {
            Ok(automaton) => println!(rt; "automaton: {} states", automaton.state_count())?,
            Err(fault) => println!(rt; "automaton: {}", fault.number())?,
        }
    }
    Ok(())
}
