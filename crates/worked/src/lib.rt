// Worked traces: what the definitions say of small recordings.
#![tactic(auto)]

ghost use Rattle.std.specs.Prelude.{◌≡◌, true};
ghost use Rattle.worked.specs.Traces.{worked, RulesTabled};

// Seven traces, by computation over the definitions: which runs are accepted, why others are
// refused, how many pairs there are, and which run breaks a rule. The tables by which the rules are
// watched list the subformulas of these rules.
pub fn worked_traces()
    ensures computed { worked ≡ true }
    ensures tabled { RulesTabled }
{}
