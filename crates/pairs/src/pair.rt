// Nodes of the system of pairs.

// A cut, by thread how many of its first events are in it, and the monitor's code after the events
// of the cut.
#[derive(Clone, Copy, Debug, PartialEq, Eq)]
pub struct Pair {
    pub cut: [u8; 8],
    pub code: u64,
}
