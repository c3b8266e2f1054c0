// A small system and its listing, by computation.
ghost use Rattle.explore.specs.Walk.{Walked};

// The listing of a walk of two steps has six rows; row 4 is found by the labels 0 and 1.
pub fn walk_is_listed()
    ensures { Walked }
{}
