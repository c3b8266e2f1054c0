// Formulas as monitors: one pass over the table makes the code after an event.
ghost use Rattle.std.specs.Prelude.{◌≡◌, ℕ};
ghost use Rattle.formula.specs.Meant.{meant};
ghost use Rattle.formula.specs.Step.{Turn};

use crate::formula::Formula;
use crate::step::{BAD, BEGUN, begins, holds};
use codes::{has, only};
use events::Action;
use monitor::Monitor;

impl Monitor for Formula {
    ghost meaning = { meant };

    // Ahead of the first event a comparison is true that the starting values meet.
    fn start(&self) -> u64 {
        let mut code = 0;
        for (i, node) in self.table.as_slice().iter().enumerate() {
            if begins(*node, &self.starts) {
                code |= only(i as u8);
            }
        }
        code
    }

    // The step is the one code that the rule allows, whatever code it starts from. Parts stand behind
    // the subformulas that they are parts of, so the pass goes from the last subformula to the first.
    fn step(&self, code: u64, action: Action) -> u64
        ensures value { result ≡ (meant self.now).step code action }
        ensures rule { Turn self.now.table.nodes self.now.table.len code action result }
        ensures alone { (q : ℕ) → Turn self.now.table.nodes self.now.table.len code action q → q ≡ result }
    {
        let mut next = 0;
        for (i, node) in self.table.as_slice().iter().enumerate().rev() {
            let i = i as u8;
            if holds(*node, i, code, next, action) {
                next |= only(i);
            }
        }
        let mut all = next | only(BEGUN);
        if self.bad(code) || !has(next, 0) {
            all |= only(BAD);
        }
        all
    }

    fn bad(&self, code: u64) -> bool {
        has(code, BAD)
    }
}
