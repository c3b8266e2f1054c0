// The path by which a row was found.
ghost use Rattle.std.specs.Prelude.{◌≡◌, map, length};
ghost use Rattle.explore.specs.ReadBack.{parent_of, path_by, back_path, written};

use crate::entry::Traced;

// Why a path is not given.
#[derive(Clone, Copy, Debug, PartialEq, Eq)]
pub enum NoPath {
    // there is no such row
    NoRow,
    // the list of labels is too short
    Short,
}

// The row that row i was found from, where that is an earlier one: row 0 has none.
fn parent<R: Traced>(rows: &[R], i: usize) -> Option<usize>
    ensures { result ≡ parent_of (map R.Traced.found_from rows.now) i }
{
    let from = rows.get(i)?.from();
    (from < i).then_some(from)
}

// How many steps lead to a row.
#[tactic(auto, using(crate::proofs::ReadBack::some_parent, crate::proofs::ReadBack::path_more, crate::proofs::ReadBack::path_root))]
fn depth<R: Traced>(rows: &[R], row: usize) -> usize
    ensures { result ≡ length (path_by R.Traced.found_from R.Traced.found_by rows.now row) }
{
    // Stays a loop: the library's `successors` has no end that a proof knows of.
    let mut place = row;
    let mut n = 0;
    while let Some(from) = parent(rows, place) {
        place = from;
        n += 1;
    }
    n
}

// Writes the labels that lead from row 0 to a row into the front of `labels`, and says how many they
// are; the labels beyond stay as they were. Of rows that are no listing it goes back as long as each
// row was found from an earlier one.
#[tactic(auto, using(crate::proofs::ReadBack::path_root))]
pub fn path_back<R: Traced>(rows: &[R], row: usize, labels: &mut [u8]) -> Result<usize, NoPath>
    ensures answer { result ≡ back_path (length rows.now) row (path_by R.Traced.found_from R.Traced.found_by rows.now row) (length labels.old) }
    ensures labels { labels.new ≡ written result (path_by R.Traced.found_from R.Traced.found_by rows.now row) labels.old }
{
    if row >= rows.len() {
        return Err(NoPath::NoRow);
    }
    let len = depth(rows, row);
    if len > labels.len() {
        return Err(NoPath::Short);
    }
    // Stays a loop by index: of what an iterator from the back writes a proof learns nothing.
    let mut i = row;
    let mut n = len;
    while let Some(from) = parent(rows, i) {
        n -= 1;
        labels[n] = rows[i].label();
        i = from;
    }
    Ok(len)
}
