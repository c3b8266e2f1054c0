// What is proved of the pairs of every noted list and every monitor. These functions compute
// nothing: their contracts are the theorems.
ghost use Rattle.std.specs.Prelude.{◌≡◌, true};
ghost use Rattle.pairs.specs.Theorems.{PairsLevelled, PairsTold, PairsStep, PairsReach, PairsPaths};
ghost use Rattle.pairs.specs.Theorems.{FullByCounts, FullBySum, SystemsAgree, PairsJudged, RoomJudged};
ghost use Rattle.pairs.specs.Examples.{worked};

// The pairs are a system in levels, and a test tells whether two are equal.
pub fn levels()
    ensures levelled { PairsLevelled }
    ensures told { PairsTold }
{}

// The paths of pairs are the paths of cuts, and those to a full cut the consistent runs.
pub fn paths()
    ensures step { PairsStep }
    ensures reach { PairsReach }
    ensures runs { PairsPaths }
{}

// A pair's cut is full just if its counts are those of the trace.
pub fn full_cuts()
    ensures counts { FullByCounts }
    ensures sum { FullBySum }
{}

// Of two systems that agree on all that can be reached, a room holds the same rows.
pub fn agreement<N>()
    ensures { SystemsAgree N }
{}

// What the rows of a listing, or of a room, say of the consistent runs.
pub fn judgement()
    ensures listing { PairsJudged }
    ensures room { RoomJudged }
{}

// The pairs of small traces, by computation.
pub fn examples()
    ensures { worked ≡ true }
{}
