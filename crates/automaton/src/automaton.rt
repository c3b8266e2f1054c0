// An automaton over a lent list of arcs.
ghost use Rattle.std.specs.Prelude.{◌≡◌, ◌<◌, ◌≤◌, false};
ghost use Rattle.std.specs.List.{list_any};
ghost use Rattle.automaton.specs.Made.{outside};

use crate::arc::Arc;

#[derive(Clone, Copy)]
pub struct Automaton<'a> {
    pub(crate) states: u8,
    pub(crate) start: u8,
    pub(crate) bad: u8,
    pub(crate) arcs: &'a [Arc],
    pub ghost few: { states ≤ 32 },
    pub ghost start_within: { start < states },
    pub ghost bad_within: { bad < states },
    pub ghost arcs_within: { list_any (outside states) arcs.now ≡ false },
}

impl<'a> Automaton<'a> {
    // How many states there are: never more than 32.
    pub fn state_count(&self) -> u8
        ensures count { result ≡ self.now.states }
        ensures few { result ≤ 32 }
    {
        self.states
    }
}
