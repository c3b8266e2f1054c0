// Vector clocks of 8 threads, a count for each.
ghost use Rattle.std.specs.Prelude.{◌≡◌, ℕ, ◌<◌, max, slice_index};
ghost use Rattle.order.specs.Clocks.{tick};

use std::array;

// The clock with one more at the thread.
pub(crate) fn ticked(clock: [u8; 8], thread: u8) -> [u8; 8]
    requires thread { thread < 8 }
    requires room { slice_index clock thread < 255 }
    ensures { (j : ℕ) → j < 8 → slice_index result j ≡ tick thread (λ u. slice_index clock u) j }
{
    let mut next = clock;
    next[thread as usize] += 1;
    next
}

// The larger count at each thread.
pub(crate) fn joined(a: [u8; 8], b: [u8; 8]) -> [u8; 8]
    ensures { (j : ℕ) → j < 8 → slice_index result j ≡ max (slice_index a j) (slice_index b j) }
{
    array::from_fn(|j| a[j].max(b[j]))
}
