// Formulas.
ghost use Rattle.std.specs.Prelude.{◌<◌, ◌≤◌, length};
ghost use Rattle.formula.specs.Table.{Sound};

use crate::node::Table;
use events::Starts;

// A formula as the table of its subformulas, with the starting values of the variables. Parts of a
// subformula stand behind it.
#[derive(Clone, Copy)]
pub struct Formula {
    pub(crate) table: Table,
    pub(crate) starts: Starts,
    ghost some: { 0 < table.len },
    ghost few: { table.len ≤ 60 },
    ghost sound: { Sound (length starts) table.len table.nodes },
}
