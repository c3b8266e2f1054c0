// A trace notes what threads do.
ghost use Rattle.std.specs.Prelude.{◌≡◌};
ghost use Rattle.events.specs.Noting.{answer, extended};
ghost use Rattle.trace.specs.Meaning.{opening_of, noted_of, rows_of, loan_of, refused_by, rows_after, KeptBy};

use crate::Trace;
use events::{Action, Refusal};

impl<'a> Trace<'a> {
    // Notes the action as the thread's next event, and gives its place; or refuses it, and then
    // nothing changes.
    pub fn note(&mut self, action: Action) -> Result<u8, Refusal>
        ensures says { result ≡ answer (refused_by self.old action) (noted_of self.old) action }
        ensures noted { noted_of self.new ≡ extended (refused_by self.old action) (noted_of self.old) action }
        ensures opening { opening_of self.new ≡ opening_of self.old }
        ensures rows { rows_of self.new ≡ rows_after (refused_by self.old action) self.old action }
        ensures kept { KeptBy (refused_by self.old action) self.old self.new }
        ensures loan { loan_of self.new ≡ loan_of self.old }
    {
        let spare = self.rows.len() < self.rows.capacity();
        let place = self.state.step(action, spare)?;
        let event = action.at(place);
        let _ = self.rows.push(event);
        Ok(place)
    }
}
