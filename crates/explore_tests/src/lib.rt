// A small machine, with rows of its own, on which the engine is run.
#![tactic(auto)]

ghost use Rattle.std.specs.Prelude.{◌==◌};
ghost use Rattle.explore.specs.Walk.{walk};
ghost use Rattle.std.specs.Cmp.{unsigned_Decides};

use explore::{Entry, Machine, Traced};
use rows::Keyed;

// Two steps, each by 0 or 1: a node is the number of steps, times 16, and their sum.
#[derive(Drop)]
pub struct Walk;

// A row of the tests. Stays beside the judge's row, which is written as it is: that one has the names
// that its users read.
#[derive(Clone, Copy)]
pub struct Step {
    pub node: u8,
    pub from: usize,
    pub label: u8,
}

// A row that stands for none, with which tables are made.
pub const BLANK: Step = Step {
    node: 99,
    from: 99,
    label: 99,
};

impl Machine<u8> for Walk {
    ghost system = { λ _. walk };

    fn labels(&self) -> u8 {
        2
    }

    fn first(&self) -> u8 {
        0
    }

    // Stays with one number for a node: `walk`, whose listing is proved, has its nodes so.
    fn next(&self, node: u8, label: u8) -> Option<u8> {
        // Stays an `if`: `then_some` would add ahead of the test, and `then` takes a closure.
        if node < 32 && label < 2 {
            Some(node + 16 + label)
        } else {
            None
        }
    }
}

impl Keyed<u8> for Step {
    ghost keyed = { λ s. s.node };

    ghost has = { λ k s. (s.node == k) };

    ghost decides = { λ k s. unsigned_Decides s.node k };

    fn matches(&self, key: u8) -> bool {
        self.node == key
    }
}

impl Traced for Step {
    ghost found_from = { λ s. s.from };

    ghost found_by = { λ s. s.label };

    fn from(&self) -> usize {
        self.from
    }

    fn label(&self) -> u8 {
        self.label
    }
}

impl Entry<u8> for Step {
    fn new(node: u8, from: usize, label: u8) -> Step {
        Step { node, from, label }
    }

    fn node(&self) -> u8 {
        self.node
    }
}

#[cfg(test)]
mod tests;
