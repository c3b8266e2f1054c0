// Actions that are right in form.
ghost use Rattle.std.specs.Prelude.{◌≡◌, ◌<◌};
ghost use Rattle.events.specs.Kinds.{kind_number};
ghost use Rattle.trace.specs.Subjects.{most_subjects};

use events::{Action, Kind};

// An action with its kind, whose thread and subject exist.
#[derive(Clone, Copy)]
pub struct Admitted {
    pub(crate) kind: Kind,
    pub(crate) action: Action,
    ghost known: { kind_number kind ≡ action.kind },
    ghost thread: { action.thread < 8 },
    ghost subject: { action.subject < most_subjects action.kind },
}
