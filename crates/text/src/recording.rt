// What the text of a recording says.
use crate::place::Place;
use events::Action;

// The thread count, the starting values, the actions in the order seen, and the part of the text
// that spells the rule, with the place of its first byte.
#[derive(Drop)]
pub struct Recording<'a> {
    pub threads: u8,
    pub starts: Vec<i32>,
    pub actions: Vec<Action>,
    pub rule: &'a [u8],
    pub rule_place: Place,
}
