//! Laws of a lawful store, each the contract of a function that does nothing.

ghost use Rattle.ucq_store.specs.Laws.{CutListing, DerivedKeepsNames, EnoughBudget, FinishedIsClosed, FinishedIsExact, ListingKeepsNames, LiveKeepNames, TakenAreCovered};
ghost use Rattle.ucq_store.specs.Moments.{StayCovered};

/// The live queries of a finished store cover the problem's query, and each rewriting of each of them.
pub fn finished_is_closed()
    ensures { FinishedIsClosed }
{}

/// The live queries of a finished store are an exact union.
pub fn finished_is_exact()
    ensures { FinishedIsExact }
{}

/// The rows of a lawful store are a cut listing.
pub fn cut_listing()
    ensures { CutListing }
{}

/// Where the levels end, a store with enough budget isn't cut, and no row is deeper than the last level.
pub fn enough_budget()
    ensures { EnoughBudget }
{}

/// After a report is taken, a live row covers each of its cores, also those for which no row was added.
pub fn taken_are_covered()
    ensures { TakenAreCovered }
{}

/// What a live row covers stays covered, whatever calls a store has.
pub fn stay_covered()
    ensures { StayCovered }
{}

/// No row has a name that isn't one of the problem: where each predicate and constant of the problem is a number below some
/// count, so is each of a core of a rewriting of such a query, of the rows of a cut listing, and of the live queries of a
/// lawful store.
pub fn rows_keep_names()
    ensures derived { DerivedKeepsNames }
    ensures listing { ListingKeepsNames }
    ensures live { LiveKeepNames }
{}
