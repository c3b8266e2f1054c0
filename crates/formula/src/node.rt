// Tables of subformulas.
ghost use Rattle.std.specs.Prelude.{◌≡◌, ◌≤◌, length, take};

// The most subformulas that a formula may have.
pub(crate) const MOST: usize = 60;

// One subformula. It names a variable and a constant, a label, a thread, or its parts by their
// numbers.
// Stays an enum beside Word: one enum for both would have a type parameter for its parts, which stands
// for nothing in a word, so that a word would be `Not(())` or `And((), ())`.
#[derive(Clone, Copy, Debug, PartialEq, Eq)]
pub enum Node {
    Eq(u8, i32),
    Lt(u8, i32),
    Gt(u8, i32),
    Mark(u8),
    By(u8),
    Not(u8),
    Before(u8),
    Once(u8),
    Always(u8),
    And(u8, u8),
    Or(u8, u8),
    Implies(u8, u8),
    Since(u8, u8),
}

// The subformulas of a formula in the order of their words, from number 0: the first `len` rows.
// Stays a table with a count, and no ArrayVec: it is copied with the formula, and is filled from its
// last row on. Stays two fields in the contracts, and no list seen by Model: what stands beyond the
// rows is promised too.
#[derive(Clone, Copy)]
pub struct Table {
    pub nodes: [Node; MOST],
    pub len: u8,
}

impl Table {
    pub(crate) fn as_slice(&self) -> &[Node]
        requires { self.now.len ≤ 60 }
        ensures nodes { result.now ≡ take self.now.len self.now.nodes }
        ensures len { length result.now ≡ self.now.len }
    {
        &self.nodes[..usize::from(self.len)]
    }
}
