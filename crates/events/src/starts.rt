// The starting values of a trace's variables.
ghost use Rattle.std.specs.Prelude.{◌≡◌, ◌<◌, ◌≤◌, ℤ, List, length, IsNone, ◌↔◌, IfSome, slice_get};

use crate::sizes::VARIABLES;
use std::marker::Model;

// At most 32 values, seen as their list. The table holds 0 beyond them.
// Stays a table with a count: it takes no heap as a Vec does, and it is copied and shows its whole
// table, which an ArrayVec does not.
#[derive(Clone, Copy, Debug, PartialEq, Eq)]
pub struct Starts {
    values: [i32; VARIABLES],
    count: usize,
}

impl Model for Starts {
    ghost use Rattle.std.specs.Prelude.{ℤ, List};
    ghost use Rattle.events.specs.Starts.{listed, IsTable, table_of, table_of_listed};

    ghost Value = { List ℤ };

    ghost view = { listed };

    ghost invariant = { IsTable };

    ghost inverse = { table_of };

    ghost inverse_ok = { table_of_listed };
}

impl Starts {
    ghost use Rattle.events.specs.Starts.{filled};

    // These values, if there are at most 32.
    pub fn new(values: &[i32]) -> Option<Starts>
        ensures many { IsNone result ↔ (32 < length values.now) }
        ensures values { IfSome result (λ starts. starts ≡ values.now) }
    {
        let count = values.len();
        if count > VARIABLES {
            return None;
        }
        let mut table = [0; VARIABLES];
        table[..count].copy_from_slice(values);
        Some(Starts {
            values: table,
            count,
        })
    }

    // How many values there are.
    pub fn count(&self) -> usize
        ensures count { result ≡ length self.now }
        ensures few { length self.now ≤ 32 }
    {
        self.count
    }

    // The values.
    pub fn as_slice(&self) -> &[i32]
        ensures { result.now ≡ self.now }
    {
        &self.values[..self.count]
    }

    // The values, and 0 beyond them.
    pub fn table(&self) -> [i32; VARIABLES]
        ensures { result ≡ filled self.now }
    {
        self.values
    }

    // The value of a variable, if there is that variable.
    pub fn at(&self, variable: u8) -> Option<i32>
        ensures { result ≡ slice_get self.now variable }
    {
        self.as_slice().get(variable as usize).copied()
    }
}
