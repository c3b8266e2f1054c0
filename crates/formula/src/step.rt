// What an event makes of one subformula.
ghost use Rattle.std.specs.Prelude.{◌≡◌, pos, slice_index_or};
ghost use Rattle.codes.specs.Codes.{bit_of};
ghost use Rattle.formula.specs.Step.{met, truth, initial, writes};

use crate::node::{MOST, Node};
use codes::has;
use events::{Action, Kind, Starts};

// The bits of a code beside those of the subformulas: whether there was an event yet, and whether the
// formula was false after one.
// Stays a number: a code of any monitor is 64 bits, by which cuts are told apart.
pub(crate) const BEGUN: u8 = MOST as u8;

pub(crate) const BAD: u8 = BEGUN + 1;

fn is_write(action: Action, variable: u8) -> bool
    ensures { result ≡ writes action variable }
{
    action.kind == Kind::Write as u8 && action.subject == variable
}

// Whether the subformula is a comparison that is true of the value.
fn meets(node: Node, value: i32) -> bool
    ensures { result ≡ met node value }
{
    match node {
        Node::Eq(_, c) => value == c,
        Node::Lt(_, c) => value < c,
        Node::Gt(_, c) => value > c,
        _ => false,
    }
}

// Whether subformula i is true after the action. `code` has the truths ahead of it, and `next` those
// after it of the later subformulas.
// Stays two parameters, code and action: the code is the formula's, the action the trace's.
pub(crate) fn holds(node: Node, i: u8, code: u64, next: u64, action: Action) -> bool
    ensures { result ≡ truth node i (bit_of code) (bit_of next) action }
{
    let later = has(code, BEGUN);
    let own = has(code, i);
    match node {
        Node::Eq(x, _) | Node::Lt(x, _) | Node::Gt(x, _) => if is_write(action, x) {
            meets(node, action.value)
        } else {
            own
        },
        Node::Mark(k) => action.kind == Kind::Internal as u8 && action.subject == k,
        Node::By(t) => action.thread == t,
        Node::Not(f) => !has(next, f),
        Node::Before(f) => later && has(code, f),
        Node::Once(f) => has(next, f) || later && own,
        Node::Always(f) => has(next, f) && (!later || own),
        Node::And(f, g) => has(next, f) && has(next, g),
        Node::Or(f, g) => has(next, f) || has(next, g),
        Node::Implies(f, g) => !has(next, f) || has(next, g),
        Node::Since(f, g) => has(next, g) || has(next, f) && later && own,
    }
}

// The starting value of a variable, or 0 if there is no such variable.
fn start_of(starts: &Starts, variable: u8) -> i32
    ensures { result ≡ slice_index_or starts.now variable (pos 0) }
{
    starts.at(variable).unwrap_or(0)
}

// Whether a subformula is a comparison that the starting values meet.
pub(crate) fn begins(node: Node, starts: &Starts) -> bool
    ensures { result ≡ initial starts.now node }
{
    match node {
        Node::Eq(x, _) | Node::Lt(x, _) | Node::Gt(x, _) => meets(node, start_of(starts, x)),
        _ => false,
    }
}
