// A row of a trace's map.
use events::Event;

// What the map says of one event: the event; the thread and the place of the event that feeds it,
// or `NO_SOURCE` where nothing does; and for each thread how many of its events are this one or
// before it.
#[derive(Clone, Copy, Debug, PartialEq, Eq)]
pub struct Row {
    pub event: Event,
    pub source: (u8, u8),
    pub clock: [u8; 8],
}

impl Row {
    // What stands for the source of an event that nothing feeds. Stays a pair of numbers: users read a
    // map's rows in this form.
    pub const NO_SOURCE: (u8, u8) = (255, 0);

    // A row that stands for no event, with which tables are made. Its source has place 0, which no
    // event has.
    pub const BLANK: Row = Row {
        event: Event::BLANK,
        source: (0, 0),
        clock: [0; 8],
    };
}
