// What is recorded, and the words in which a trace speaks of it: actions of threads, events,
// kinds, locks, and the reasons why an opening or an event is refused.
#![tactic(auto)]

pub mod event;
pub mod kind;
pub mod lock;
pub mod refusal;
pub mod sizes;
pub mod starts;

pub use event::{Action, Event};
pub use kind::{Kind, NoKind};
pub use lock::Lock;
pub use refusal::{OpenRefusal, Refusal};
pub use sizes::{EVENT_ROWS, LABELS, LOCKS, THREADS, VARIABLES};
pub use starts::Starts;
