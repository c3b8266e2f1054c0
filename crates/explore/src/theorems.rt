// What is proved of listings: each theorem is the contract of a function that does nothing.
ghost use Rattle.explore.specs.Theorems.{ListingIsOne, ListingExists, ListingReaches};
ghost use Rattle.explore.specs.Theorems.{RoomHoldsFirst, RowsAreOrdered};

// A system has one listing at most.
pub fn listing_is_one<N>()
    ensures { ListingIsOne N }
{}

// A system in levels has a listing.
pub fn listing_exists<N>()
    ensures { ListingExists N }
{}

// A listing has exactly the nodes that can be reached, each once, by their first paths.
pub fn listing_reaches<N>()
    ensures { ListingReaches N }
{}

// A room for c rows holds the first c rows of the listing, and tells whether these are all.
pub fn room_holds_first<N>()
    ensures { RoomHoldsFirst N }
{}

// In levels, the rows that a room holds stand in the order of their least paths.
pub fn rows_are_ordered<N>()
    ensures { RowsAreOrdered N }
{}
