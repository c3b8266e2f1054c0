// A state takes in an action, or refuses it by the first reason that fits.
ghost use Rattle.std.specs.Prelude.{◌≡◌, ◌<◌, slice_index, slice_index_or};
ghost use Rattle.events.specs.First.{first_fit, told};
ghost use Rattle.events.specs.declared.lock.Lock.TheVariants.{Free};
ghost use Rattle.trace.specs.Steps.{value_tests, lock_tests, room_tests, step_tests, or_else, Admits, placed, after, changed, counted, next_place, stepped};

use crate::admitted::Admitted;
use crate::locks::turn;
use crate::state::State;
use events::{Action, Kind, Refusal};

impl State {
    // Whether there is room for one more event of the thread. The flag says whether a row is spare.
    fn room(&self, admitted: Admitted, spare: bool) -> Result<(), Refusal>
        ensures { result ≡ told (first_fit (room_tests self.now spare admitted.action.thread)) }
    {
        if self.counts[admitted.action.thread as usize] == 255 {
            return Err(Refusal::ThreadFull);
        }
        if !spare {
            return Err(Refusal::RowsFull);
        }
        Ok(())
    }

    // The action, where it is right in form.
    fn admit(&self, action: Action) -> Result<Admitted, Refusal>
        ensures { Admits self.now action result }
    {
        let Ok(setting) = &self.setting else {
            return Err(Refusal::Void);
        };
        if action.thread >= setting.threads {
            return Err(Refusal::Thread);
        }
        let kind = Kind::try_from(action.kind)?;
        if action.subject as usize >= setting.subjects(kind) {
            return Err(Refusal::Subject);
        }
        Ok(Admitted { kind, action })
    }

    // Whether the value is right: 0 at a lock's event, and at a read the variable's own.
    fn weigh(&self, admitted: Admitted) -> Result<(), Refusal>
        ensures { result ≡ told (first_fit (value_tests self.now admitted.action)) }
    {
        let action = admitted.action;
        match admitted.kind {
            Kind::Acquire | Kind::Release if action.value != 0 => Err(Refusal::LockValue),
            Kind::Read if action.value != self.values[action.subject as usize] => Err(
                Refusal::ReadValue,
            ),
            _ => Ok(()),
        }
    }

    // What the action does to its variable or lock, where it may and there is room.
    fn change(&mut self, admitted: Admitted, room: Result<(), Refusal>) -> Result<(), Refusal>
        ensures says { result ≡ or_else (first_fit (lock_tests (slice_index_or self.old.locks admitted.action.subject Free) admitted.action.kind admitted.action.thread)) room }
        ensures next { self.new ≡ after result (changed self.old admitted.action) self.old }
    {
        let Admitted { kind, action } = admitted;
        match kind {
            Kind::Acquire | Kind::Release => {
                turn(
                    &mut self.locks[action.subject as usize],
                    kind,
                    action.thread,
                    room,
                )
            }
            Kind::Write => {
                room?;
                self.values[action.subject as usize] = action.value;
                Ok(())
            }
            Kind::Internal | Kind::Read => room,
        }
    }

    // Counts one more event of the thread, and gives its place.
    fn count(&mut self, admitted: Admitted) -> u8
        requires { slice_index self.old.counts admitted.action.thread < 255 }
        ensures place { result ≡ next_place self.old admitted.action.thread }
        ensures next { self.new ≡ counted self.old admitted.action.thread }
    {
        let thread = admitted.action.thread;
        let place = self.counts[thread as usize] + 1;
        self.counts[thread as usize] = place;
        place
    }

    // Takes in an action, and gives the place of its event; a refusal changes nothing.
    pub(crate) fn step(&mut self, action: Action, spare: bool) -> Result<u8, Refusal>
        ensures says { result ≡ placed (first_fit (step_tests self.old spare action)) (next_place self.old action.thread) }
        ensures next { self.new ≡ after result (stepped self.old action) self.old }
    {
        let admitted = self.admit(action)?;
        self.weigh(admitted)?;
        let room = self.room(admitted, spare);
        self.change(admitted, room)?;
        Ok(self.count(admitted))
    }
}
