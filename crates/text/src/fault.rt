// Why a text is not read, and the numbers by which users know the reasons.
ghost use Rattle.std.specs.Prelude.{◌≡◌};
ghost use Rattle.text.specs.Numbers.{text_number, text_place};
ghost use Rattle.text.specs.declared.fault.ReadFault.TheVariants.{Memory, Text};

use crate::place::Place;
use std::alloc::{AllocError, AllocFailed};

// What is wrong with a text.
#[derive(Clone, Copy, Debug, PartialEq, Eq)]
pub enum TextFault {
    // more than 60,000 bytes
    TooLong,
    // the first byte with which no legal text goes on
    Unexpected(Place),
    // the end of a text with which some legal text begins
    EndsEarly(Place),
    // the first number outside its range
    OutOfRange(Place),
}

// Why a recording is not read.
// Stays an enum of its own, and no Option: no memory is a reason too, and has its word.
// Stays beside the predictor's Stop: of one type for both, generic in the fault, the conversions from
// a fault and from AllocError would overlap.
#[derive(Clone, Copy, Debug, PartialEq, Eq)]
pub enum ReadFault {
    Text(TextFault),
    // no memory
    Memory,
}

impl TextFault {
    // Stays a method, as at every fault: users call it, and a trait would be one more word for them.
    // Stays a match: a case that holds a place has no discriminant to cast.
    pub fn number(self) -> u8
        ensures { result ≡ text_number self }
    {
        match self {
            TextFault::TooLong => 60,
            TextFault::Unexpected(_) => 61,
            TextFault::EndsEarly(_) => 62,
            TextFault::OutOfRange(_) => 63,
        }
    }

    // Where the fault is: the start of a text that is too long.
    pub fn place(self) -> Place
        ensures { result ≡ text_place self }
    {
        match self {
            TextFault::TooLong => Place::START,
            TextFault::Unexpected(place)
            | TextFault::EndsEarly(place)
            | TextFault::OutOfRange(place) => place,
        }
    }
}

impl From<TextFault> for ReadFault {
    ghost from_gives = { λ fault r. r ≡ Text fault };

    fn from(fault: TextFault) -> ReadFault {
        ReadFault::Text(fault)
    }
}

impl From<AllocError> for ReadFault {
    ghost from_gives = { λ _ r. r ≡ Memory };

    fn from(_error: AllocError) -> ReadFault {
        ReadFault::Memory
    }
}

impl<T: Drop> From<AllocFailed<T>> for ReadFault {
    ghost from_gives = { λ _ r. r ≡ Memory };

    fn from(_refused: AllocFailed<T>) -> ReadFault {
        ReadFault::Memory
    }
}
