// Actions and arcs, in short.
use automaton::Arc;
use events::Action;

// Stays with a number for the kind: numbers that are no kind's are noted too, to be refused.
pub fn action(thread: u8, kind: u8, subject: u8, value: i32) -> Action {
    Action {
        thread,
        kind,
        subject,
        value,
    }
}

// From state 0 to state 1 at any internal event with label 5.
// Stays with numbers for kind and comparison: an arc has them so.
pub const STEP: Arc = Arc {
    from: 0,
    kind: 0,
    subject: 5,
    comparison: 3,
    constant: 0,
    to: 1,
};
