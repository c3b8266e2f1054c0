// The exploration of any machine, into rows that the caller lends.
ghost use Rattle.std.specs.Prelude.{◌≡◌, ◌+◌, ◌<◌, ◌≤◌, length, take, drop, is_ok};
ghost use Rattle.rows.specs.Listed.{lent, count, listed};
ghost use Rattle.explore.specs.Entries.{rows_by};
ghost use Rattle.explore.specs.Listing.{Holds};
ghost use Rattle.explore.specs.Upto.{Upto};
ghost use Rattle.explore.specs.Tables.{GoesOn, Stands, Leaves, listed_in};

use crate::entry::{Entry, Traced};
use crate::machine::Machine;
use rows::{Full, Keyed, Rows};
use std::marker::PhantomData;

// An exploration under way: a machine, and the nodes of it that are listed so far.
#[derive(Drop)]
struct Exploration<'m, 'l, 'r, N, R, M> {
    machine: &'m M,
    // Stays lent, and not owned: a proof does not follow a loan that is two structs deep.
    list: &'l mut Rows<'r, R>,
    nodes: PhantomData<N>,
}

impl<N: Copy, R: Entry<N>, M: Machine<N>> Exploration<'_, '_, '_, N, R, M> {
    // Whether the node is listed.
    fn stands(&self, node: N) -> bool
        ensures { Stands (rows_by R.Entry (listed self.now.list.now)) node result }
    {
        self.list.find(node).is_some()
    }

    // Tries a label at row i: the node that it leads to, if any, is put last unless it is listed.
    #[tactic(auto, using(crate::proofs::Tables::row_read, crate::proofs::Tables::one_none, crate::proofs::Tables::one_seen))]
    fn try_label(&mut self, i: usize, label: u8) -> Result<(), Full>
        requires upto { Upto (M.Machine.system self.old.machine.now) (rows_by R.Entry (listed self.old.list.now)) i label }
        requires inside { i < count self.old.list.now }
        requires valid { label < (M.Machine.system self.old.machine.now).labels }
        ensures goes_on { GoesOn self.old self.new }
        ensures leaves { Leaves (M.Machine.system self.new.machine.now) (length (lent self.new.list.now)) (rows_by R.Entry (listed self.new.list.now)) i (label + 1) result }
    {
        let row = self.list.as_slice()[i];
        let Some(node) = self.machine.next(row.node(), label) else {
            return Ok(());
        };
        if !self.stands(node) {
            self.list.push(R::new(node, i, label))?;
        }
        Ok(())
    }

    // Tries every label at row i.
    #[tactic(auto, using(crate::proofs::Tables::goes_further))]
    fn expand(&mut self, i: usize) -> Result<(), Full>
        requires upto { Upto (M.Machine.system self.old.machine.now) (rows_by R.Entry (listed self.old.list.now)) i 0 }
        requires inside { i < count self.old.list.now }
        ensures goes_on { GoesOn self.old self.new }
        ensures leaves { Leaves (M.Machine.system self.new.machine.now) (length (lent self.new.list.now)) (rows_by R.Entry (listed self.new.list.now)) (i + 1) 0 result }
    {
        // Stays a range: labels are numbers, and no list of them stands anywhere.
        for label in 0..self.machine.labels() {
            self.try_label(i, label)?;
        }
        Ok(())
    }

    // Fills an empty list with every node that can be reached, as far as there is room.
    #[tactic(auto, using(crate::proofs::Tables::goes_further))]
    fn fill(&mut self) -> Result<(), Full>
        requires { count self.old.list.now ≡ 0 }
        ensures goes_on { GoesOn self.old self.new }
        ensures holds { Holds (M.Machine.system self.new.machine.now) (length (lent self.new.list.now)) (rows_by R.Entry (listed self.new.list.now)) (is_ok result) }
    {
        // No step leads to row 0; 0 and 255 stand for one. Stays so: callers read rows as numbers.
        self.list.push(R::new(self.machine.first(), 0, 255))?;
        // Stays a loop by index: the list grows while it is gone through.
        let mut i = 0;
        while i < self.list.len() {
            self.expand(i)?;
            i += 1;
        }
        Ok(())
    }
}

// Lists the nodes of a machine that can be reached, breadth first, in the front of the rows, and
// says how many they are; or the rows are full, and more is to come. The rows beyond stay as they
// were.
pub fn explore<N: Copy, R: Entry<N>, M: Machine<N>>(
    machine: &M,
    rows: &mut [R],
) -> Result<usize, Full>
    ensures within { listed_in (length rows.old) result ≤ length rows.old }
    ensures holds { Holds (M.Machine.system machine.now) (length rows.old) (rows_by R.Entry (take (listed_in (length rows.old) result) rows.new)) (is_ok result) }
    ensures beyond { drop (listed_in (length rows.old) result) rows.new ≡ drop (listed_in (length rows.old) result) rows.old }
{
    let mut list = Rows::new(rows);
    let mut exploration = Exploration {
        machine,
        list: &mut list,
        nodes: PhantomData,
    };
    exploration.fill()?;
    Ok(list.len())
}
