// From the text of a rule to a formula.
ghost use Rattle.std.specs.Prelude.{◌≡◌};
ghost use Rattle.trace.specs.Meaning.{opening_of};
ghost use Rattle.formula.specs.Making.{ReadsText, MadeFrom, MadeOver, WatchesText};

use crate::compile::compile;
use crate::fault::RuleFault;
use crate::formula::Formula;
use crate::spell::spell;
use crate::spelling::Spelling;
use crate::suiting::check;
use events::Starts;
use text::{Rules, TextFault, admit};
use trace::Trace;

// The words of the formula that the text spells.
fn read(text: &[u8]) -> Result<Spelling, TextFault>
    ensures { ReadsText text.now result }
{
    admit::<Rules>(text)?;
    spell(text)
}

// The formula that the text spells, over variables with these starting values.
fn made(starts: Starts, text: &[u8]) -> Result<Formula, RuleFault>
    ensures made { MadeFrom starts text.now result }
    ensures watches { WatchesText starts text.now result }
{
    let spelling = read(text)?;
    check(&spelling, text, starts.count())?;
    let table = compile(spelling.as_slice()).unwrap();
    Ok(Formula { table, starts })
}

impl Formula {
    // The formula that the text spells, over the variables of the trace. A void trace is refused
    // first, then a text that is not that of a formula, then more than 60 subformulas, and then the
    // first subformula with a variable, label or thread that is not there.
    pub fn make(trace: &Trace, text: &[u8]) -> Result<Formula, RuleFault>
        ensures made { MadeOver (opening_of trace.now) text.now result }
        ensures watches { WatchesText (opening_of trace.now).starts text.now result }
    {
        let starts = trace.opened().map_err(|_| RuleFault::Void)?;
        made(starts, text)
    }
}
