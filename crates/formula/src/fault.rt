// Why a rule is refused, and the numbers by which users know the reasons.
ghost use Rattle.std.specs.Prelude.{◌≡◌};
ghost use Rattle.formula.specs.Faults.{rule_number, rule_place};
ghost use Rattle.formula.specs.declared.fault.RuleFault.TheVariants.{Text};

use text::{Place, TextFault};

// A fault of a subformula has the place of the subformula's bracket.
#[derive(Clone, Copy, Debug, PartialEq, Eq)]
pub enum RuleFault {
    // the trace is void
    Void,
    // the text is not that of a formula
    Text(TextFault),
    // there are more than 60 subformulas; this is the place of the next one
    TooMany(Place),
    // the trace does not have the variable
    Variable(Place),
    // the label is over 31
    Label(Place),
    // the thread is over 7
    Thread(Place),
}

impl RuleFault {
    // Stays a method, as at every fault: it is what users call, and the reasons of the text keep their own numbers.
    pub fn number(self) -> u8
        ensures { result ≡ rule_number self }
    {
        match self {
            RuleFault::Void => 9,
            RuleFault::Text(fault) => fault.number(),
            RuleFault::TooMany(_) => 71,
            RuleFault::Variable(_) => 72,
            RuleFault::Label(_) => 73,
            RuleFault::Thread(_) => 74,
        }
    }

    // Where the fault is: the start of the text, if the trace is void.
    pub fn place(self) -> Place
        ensures { result ≡ rule_place self }
    {
        match self {
            RuleFault::Void => Place::START,
            RuleFault::Text(fault) => fault.place(),
            RuleFault::TooMany(place)
            | RuleFault::Variable(place)
            | RuleFault::Label(place)
            | RuleFault::Thread(place) => place,
        }
    }
}

impl From<TextFault> for RuleFault {
    ghost from_gives = { λ fault r. r ≡ Text fault };

    fn from(fault: TextFault) -> RuleFault {
        RuleFault::Text(fault)
    }
}
