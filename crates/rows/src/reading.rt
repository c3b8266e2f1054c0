// What a list over lent rows holds, by place and by key.
ghost use Rattle.std.specs.Prelude.{◌≡◌, length, position, slice_get};
ghost use Rattle.rows.specs.First.{StandsFirst};
ghost use Rattle.rows.specs.Listed.{lent, count, listed};

use crate::keyed::{Keyed, find_in};
use crate::list::Rows;

impl<'a, R: Copy> Rows<'a, R> {
    // How many rows are listed.
    pub fn len(&self) -> usize
        ensures { result ≡ count self.now }
    {
        self.len
    }

    // How many rows were lent.
    pub fn capacity(&self) -> usize
        ensures { result ≡ length (lent self.now) }
    {
        self.rows.len()
    }

    // The listed rows.
    pub fn as_slice(&self) -> &[R]
        ensures { result.now ≡ listed self.now }
    {
        &self.rows[..self.len]
    }

    // The row at a place.
    pub fn at(&self, i: usize) -> Option<R>
        ensures { result ≡ slice_get (listed self.now) i }
    {
        self.as_slice().get(i).copied()
    }

    // The place of the first row with the key.
    pub fn find<K: Copy>(&self, key: K) -> Option<usize>
    where
        R: Keyed<K>,
        ensures value { result ≡ position (R.Keyed.has key) (listed self.now) }
        ensures first { StandsFirst R.Keyed.keyed key (listed self.now) result }
    {
        find_in(self.as_slice(), key)
    }
}
