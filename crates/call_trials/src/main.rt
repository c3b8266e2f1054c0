// Calls made directly, as a program that uses the library makes them: refusals by their numbers,
// rules by their truth after each event, and a rule against an automaton for the same property.
#![tactic(auto)]

mod agreement;
mod given;
mod refusals;
mod rules;
mod said;

use automaton::Automaton;
use given::STEP;
use std::io;

fn main(rt: HostRuntime) -> io::Result<()> {
    let arcs = [STEP];
    let Ok(monitor) = Automaton::new(2, 0, 1, &arcs) else {
        return println!(rt; "no automaton");
    };
    refusals::notes(&rt)?;
    refusals::void_calls(&rt, &monitor)?;
    refusals::maps_and_replays(&rt, &monitor)?;
    refusals::judges(&rt, &monitor)?;
    refusals::automata(&rt)?;
    rules::operators(&rt)?;
    agreement::agreement(&rt)
}
