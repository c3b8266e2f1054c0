// Rows that are looked up by a key.
ghost use Rattle.std.specs.Prelude.{◌≡◌, Bool, Decides, position};
ghost use Rattle.rows.specs.First.{StandsFirst};

// A row that has a key of type K. `has` is the test whether it has a given one.
pub trait Keyed<K> {
    ghost keyed: { Self → K };

    ghost has: { K → Self → Bool };

    fn matches(&self, key: K) -> bool
        ensures { result ≡ has key self.now };

    ghost decides: { (k : K) (row : Self) → Decides (has k row) (keyed row ≡ k) };
}

// The place of the first row with the key. Stays beside `Rows::find`: it looks in any rows, also in
// those of no list.
pub fn find_in<K: Copy, R: Keyed<K>>(rows: &[R], key: K) -> Option<usize>
    ensures value { result ≡ position (R.Keyed.has key) rows.now }
    ensures first { StandsFirst R.Keyed.keyed key rows.now result }
{
    rows.iter().position(|row| row.matches(key))
}
