// Variables and locks, numbered together.
ghost use Rattle.std.specs.Prelude.{◌≡◌, ◌+◌, ◌<◌};

use events::{LOCKS, VARIABLES};

pub(crate) const OBJECTS: usize = VARIABLES + LOCKS;

// A variable or a lock: variable x has the number x, and lock l the number 32 + l.
#[derive(Clone, Copy)]
pub(crate) struct Object {
    pub(crate) number: usize,
    ghost within: { number < 48 },
}

impl Object {
    pub(crate) fn variable(x: u8) -> Object
        requires { x < 32 }
        ensures { result.number ≡ x }
    {
        Object { number: x as usize }
    }

    pub(crate) fn lock(l: u8) -> Object
        requires { l < 16 }
        ensures { result.number ≡ 32 + l }
    {
        Object {
            number: 32 + l as usize,
        }
    }
}
