// Why no event of a thread comes next.
#[derive(Clone, Copy, Debug, PartialEq, Eq)]
pub enum NoNext {
    // the thread has no event left
    Done,
    // an event before the next one is missing
    Missing,
    // another group of the next one's variable or lock is open
    Blocked,
}
