// Events that keep to the limits of a trace.
ghost use Rattle.mapping.specs.Rows.{Bounded};

use events::Event;

// An event whose thread, subject and place are within the limits, so that tables have a row for it.
#[derive(Clone, Copy)]
pub(crate) struct Placed {
    pub(crate) event: Event,
    ghost bounded: { Bounded event },
}
