// A lock is free, or held by one thread.
// Stays an enum of its own: traces speak of free and held locks, and match them so in place.
#[derive(Clone, Copy, Debug, PartialEq, Eq)]
pub enum Lock {
    Free,
    Held(u8),
}
