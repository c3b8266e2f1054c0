// A list over lent rows, which adds at its end.
ghost use Rattle.std.specs.Prelude.{◌≡◌, ◌≤◌, ◌+◌, [], ◌∷◌, ◌++◌, if◌then◌else◌, length, slice_set};

// Every row is used.
#[derive(Clone, Copy, Debug, PartialEq, Eq)]
pub struct Full;

// The first `len` of the lent rows are listed; those beyond stay as they were lent.
// Stays a slice with a length, and no Vec: callers lend the rows, and no call takes memory.
#[derive(Drop)]
pub struct Rows<'a, R> {
    pub(crate) rows: &'a mut [R],
    pub(crate) len: usize,
    pub ghost within: { len ≤ length rows.now },
}

impl<'a, R: Copy> Rows<'a, R> {
    ghost use Rattle.rows.specs.Listed.{lent, count, listed, loan, roomy, pushed_at};

    // An empty list over the rows.
    pub fn new(rows: &'a mut [R]) -> Rows<'a, R>
        ensures lent { lent result ≡ rows.old }
        ensures count { count result ≡ 0 }
        ensures listed { listed result ≡ [] }
        ensures loan { loan result ≡ rows.entry.ghost_name }
    {
        Rows { rows, len: 0 }
    }

    // Adds a row at the end, and gives its place.
    pub fn push(&mut self, row: R) -> Result<usize, Full>
        ensures place { result ≡ pushed_at self.old }
        ensures count { count self.new ≡ (if roomy self.old then count self.old + 1 else count self.old) }
        ensures lent { lent self.new ≡ (if roomy self.old then slice_set (lent self.old) (count self.old) row else lent self.old) }
        ensures listed { listed self.new ≡ (if roomy self.old then listed self.old ++ row ∷ [] else listed self.old) }
        ensures loan { loan self.new ≡ loan self.old }
    {
        if self.len >= self.rows.len() {
            return Err(Full);
        }
        let place = self.len;
        self.rows[place] = row;
        self.len += 1;
        Ok(place)
    }
}
