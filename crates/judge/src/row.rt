// Rows in which pairs are listed.
ghost use Rattle.judge.specs.Viewed.{is_pair};
ghost use Rattle.judge.specs.Keys.{decides_pair};

use explore::{Entry, Traced};
use pairs::Pair;
use rows::Keyed;

// A pair of a cut and a code, the row that it was first found from, and the thread whose event led
// from there. Row 0, which nothing led to, has 0 and 255. Stays a struct of its own, and no generic row
// of explore's: users read search rows by these names.
#[derive(Clone, Copy, Debug, PartialEq, Eq)]
pub struct SearchRow {
    pub pair: Pair,
    pub from: usize,
    pub thread: u8,
}

impl SearchRow {
    // A row that stands for no pair, with which tables are made.
    pub const BLANK: SearchRow = SearchRow {
        pair: Pair {
            cut: [0; 8],
            code: 0,
        },
        from: 0,
        thread: 0,
    };
}

impl Keyed<Pair> for SearchRow {
    ghost keyed = { λ row. row.pair };

    ghost has = { is_pair };

    ghost decides = { decides_pair };

    fn matches(&self, key: Pair) -> bool {
        self.pair == key
    }
}

impl Traced for SearchRow {
    ghost found_from = { λ row. row.from };

    ghost found_by = { λ row. row.thread };

    fn from(&self) -> usize {
        self.from
    }

    fn label(&self) -> u8 {
        self.thread
    }
}

impl Entry<Pair> for SearchRow {
    fn new(pair: Pair, from: usize, thread: u8) -> SearchRow {
        SearchRow { pair, from, thread }
    }

    fn node(&self) -> Pair {
        self.pair
    }
}
