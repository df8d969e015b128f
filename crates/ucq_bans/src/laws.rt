//! Laws of constraints, each the contract of a function that does nothing.
ghost use Rattle.ucq_bans.specs.Laws.{MappedRowsViolate, NoViolationWithoutRow, ViolatingSetsHoldConflicts};

/// Where a row of a Boolean query's store maps into facts, they violate it, whether the store is finished or not.
pub fn mapped_rows_violate()
    ensures { MappedRowsViolate }
{}

/// Facts into which no row of a finished store maps don't violate its query.
pub fn no_violation_without_row()
    ensures { NoViolationWithoutRow }
{}

/// A set of facts violates the query of a finished store exactly where it holds all facts of some conflict. So it is
/// consistent exactly where it misses a fact of each.
pub fn violating_sets_hold_conflicts()
    ensures { ViolatingSetsHoldConflicts }
{}
