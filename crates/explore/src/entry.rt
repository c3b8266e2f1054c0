// Rows of a listing, as a caller keeps them.
ghost use Rattle.std.specs.Prelude.{◌≡◌, ℕ};

use rows::Keyed;

// A row that tells how it was found: from the row at a place, by the step with a label.
pub trait Traced {
    ghost found_from: { Self → ℕ };

    ghost found_by: { Self → ℕ };

    fn from(&self) -> usize
        ensures { result ≡ found_from self.now };

    fn label(&self) -> u8
        ensures { result ≡ found_by self.now };
}

// A row that holds a node of type `N`, which is its key, and how it was found.
pub trait Entry<N: Copy>: Keyed<N> + Traced + Copy {
    fn new(node: N, from: usize, label: u8) -> Self
        ensures node { Self.Keyed.keyed result ≡ node }
        ensures from { Self.Traced.found_from result ≡ from }
        ensures label { Self.Traced.found_by result ≡ label };

    fn node(&self) -> N
        ensures { result ≡ Self.Keyed.keyed self.now };
}
