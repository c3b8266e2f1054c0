// What is proved of every noted list. These functions compute nothing: their contracts are the
// theorems, for the crates above to rest on.
ghost use Rattle.std.specs.Prelude.{◌≡◌, true};
ghost use Rattle.order.specs.Examples.{worked};
ghost use Rattle.order.specs.Theorems.{NotedSound, NotedAllowed, NotedDecided, OpenedWithin};
ghost use Rattle.order.specs.Theorems.{AcceptedRuns, PathRuns, OneRun, NotedRun, RealRuns};
ghost use Rattle.order.specs.Theorems.{TestsDecide, ScanCounts, WithinClock, KeptCounts};
ghost use Rattle.order.specs.Theorems.{OneMap, EqualMaps, FollowRules, SourceRules, WaitsMove};

// What noting makes sure of.
pub fn noted_lists()
    ensures sound { NotedSound }
    ensures allowed { NotedAllowed }
    ensures decided { NotedDecided }
    ensures opened { OpenedWithin }
{}

// Consistent runs are the paths of cuts.
pub fn runs()
    ensures accepted { AcceptedRuns }
    ensures paths { PathRuns }
    ensures one { OneRun }
    ensures noted { NotedRun }
    ensures real { RealRuns }
{}

// The tests decide the definitions.
pub fn tests()
    ensures { TestsDecide }
{}

// Vector clocks count what is before an event.
pub fn clocks()
    ensures scanned { ScanCounts }
    ensures within { WithinClock }
    ensures kept { KeptCounts }
{}

// Maps tell which noted lists are runs of each other.
pub fn maps()
    ensures one { OneMap }
    ensures equal { EqualMaps }
{}

// What an event waits for.
pub fn following()
    ensures rules { FollowRules }
    ensures sources { SourceRules }
    ensures waits { WaitsMove }
{}

// The tests compute what they should of small traces.
pub fn examples()
    ensures { worked ≡ true }
{}
