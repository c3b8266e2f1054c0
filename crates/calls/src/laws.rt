// What is proved of lists of calls. These functions compute nothing: their contracts are the
// theorems.
ghost use Rattle.calls.specs.Replays.{OneReplay};
ghost use Rattle.calls.specs.Law.{EveryListLawful, LawfulFromOpening};
ghost use Rattle.calls.specs.More.{EveryCallExtends, EveryListExtends};

// One answer to a replay is right.
pub fn one_replay()
    ensures { OneReplay }
{}

// Every list of calls is lawful.
pub fn every_list()
    ensures noted { EveryListLawful }
    ensures opened { LawfulFromOpening }
{}

// Every call, and every list of calls, extends whatever list led to it.
pub fn longer_lists()
    ensures call { EveryCallExtends }
    ensures list { EveryListExtends }
{}
