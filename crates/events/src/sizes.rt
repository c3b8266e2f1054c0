// How much a trace has at most.

// Threads.
pub const THREADS: usize = 8;

// Variables, which are the subjects of reads and writes.
pub const VARIABLES: usize = 32;

// Locks, which are the subjects of acquires and releases.
pub const LOCKS: usize = 16;

// Labels, which are the subjects of internal events.
pub const LABELS: usize = 32;

// Rows of events.
pub const EVENT_ROWS: usize = 1024;
