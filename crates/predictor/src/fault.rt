// A fault, as it travels up: its layer, its cause, and its place in the text.
ghost use Rattle.std.specs.Prelude.{◌≡◌, Some};
ghost use Rattle.predictor.specs.Faults.{fault_number, fault_place, layer_word, record_number, stop_of, place_in_line};
ghost use Rattle.predictor.specs.Lines.{fault_line};
ghost use Rattle.predictor.specs.declared.fault.Fault.TheVariants.{Search, Text};
ghost use Rattle.predictor.specs.declared.fault.Stop.TheVariants.{Faulty, Memory};

use events::{OpenRefusal, Refusal};
use formula::RuleFault;
use judge::JudgeRefusal;
use std::alloc::AllocError;
use std::fmt;
use text::{Place, ReadFault, TextFault};

// Why a recording is not noted whole.
#[derive(Clone, Copy, Debug, PartialEq, Eq)]
pub enum RecordFault {
    Opening(OpenRefusal),
    Noting(Refusal),
}

impl RecordFault {
    // The cause's own number.
    // Stays a method, as at every fault: users call it, and a trait would be one more word for them.
    pub fn number(self) -> u8
        ensures { result ≡ record_number self }
    {
        match self {
            RecordFault::Opening(why) => why.number(),
            RecordFault::Noting(why) => why.number(),
        }
    }
}

// The layer that a fault comes from, with the cause and, where the layer knows no places, the
// place.
#[derive(Clone, Copy, Debug, PartialEq, Eq)]
pub enum Fault {
    Text(TextFault),
    Record(RecordFault, Place),
    // the place is that of the rule's first byte, from which the cause counts
    Rule(RuleFault, Place),
    // a prediction has no place in the text
    Search(JudgeRefusal),
}

// The place in a recording of what stands at a place of its rule, which is a part of one line.
fn within_line(start: Place, inner: Place) -> Place
    ensures { result ≡ place_in_line start inner }
{
    let column = start.column.saturating_add(inner.column.saturating_sub(1));
    Place {
        line: start.line,
        column,
    }
}

impl Fault {
    // The word of the fault's layer.
    pub fn layer(&self) -> &'static str
        ensures { result.now ≡ layer_word self.now }
    {
        match *self {
            Fault::Text(_) => "text",
            Fault::Record(_, _) => "record",
            Fault::Rule(_, _) => "rule",
            Fault::Search(_) => "search",
        }
    }

    // The cause's own number.
    // Stays a method, as at every fault: users call it, and a trait would be one more word for them.
    pub fn number(&self) -> u8
        ensures { result ≡ fault_number self.now }
    {
        match *self {
            Fault::Text(cause) => cause.number(),
            Fault::Record(cause, _) => cause.number(),
            Fault::Rule(cause, _) => cause.number(),
            Fault::Search(cause) => cause.number(),
        }
    }

    pub fn place(&self) -> Place
        ensures { result ≡ fault_place self.now }
    {
        match *self {
            Fault::Text(cause) => cause.place(),
            Fault::Record(_, place) => place,
            Fault::Rule(cause, start) => within_line(start, cause.place()),
            // Stays a place: what is printed of a fault has a line and a column, 0 where there is none.
            Fault::Search(_) => Place { line: 0, column: 0 },
        }
    }
}

impl From<TextFault> for Fault {
    ghost from_gives = { λ cause r. r ≡ Text cause };

    fn from(cause: TextFault) -> Fault {
        Fault::Text(cause)
    }
}

impl From<JudgeRefusal> for Fault {
    ghost from_gives = { λ cause r. r ≡ Search cause };

    fn from(cause: JudgeRefusal) -> Fault {
        Fault::Search(cause)
    }
}

// What is printed of a fault: its layer, number, line and column.
impl fmt::Display for Fault {
    ghost output = { λ x. Some (fault_line x) };

    fn fmt<W: fmt::Write>(&self, f: &mut fmt::Formatter<W>) -> fmt::Result {
        let layer = self.layer();
        let number = self.number();
        let Place { line, column } = self.place();
        write!(f, "(fault {layer} {number} {line} {column})")
    }
}

// Why there is no answer: the recording's fault, or no memory.
// Stays an enum of its own, and no Option: no memory is a reason too, and has its word.
// Stays beside text's ReadFault: of one type for both, generic in the fault, the conversions from a
// fault and from AllocError would overlap.
#[derive(Clone, Copy, Debug, PartialEq, Eq)]
pub enum Stop {
    Faulty(Fault),
    Memory,
}

impl From<Fault> for Stop {
    ghost from_gives = { λ cause r. r ≡ Faulty cause };

    fn from(cause: Fault) -> Stop {
        Stop::Faulty(cause)
    }
}

impl From<ReadFault> for Stop {
    ghost from_gives = { λ cause r. r ≡ stop_of cause };

    fn from(cause: ReadFault) -> Stop {
        match cause {
            ReadFault::Text(cause) => Stop::Faulty(Fault::Text(cause)),
            ReadFault::Memory => Stop::Memory,
        }
    }
}

impl From<AllocError> for Stop {
    ghost from_gives = { λ _ r. r ≡ Memory };

    fn from(_error: AllocError) -> Stop {
        Stop::Memory
    }
}
