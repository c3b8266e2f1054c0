// What a trace knows beside its events.
use crate::setting::Setting;
use events::{LOCKS, Lock, OpenRefusal, THREADS, VARIABLES};

// What it is set to, or why it is void; and, as the noted events make them, the value of each
// variable, each lock, and the number of events of each thread.
#[derive(Drop)]
pub struct State {
    pub(crate) setting: Result<Setting, OpenRefusal>,
    pub(crate) values: [i32; VARIABLES],
    pub(crate) locks: [Lock; LOCKS],
    pub(crate) counts: [u8; THREADS],
}
