//! The lawful store of a rewriting: rows of cores, live and dead, by levels, with claims of rows, reports on them, and cuts.
//!
//! The definition of a lawful store is in `specs/Lawful.antt`. Every store is lawful at every moment: this is the invariant
//! of its type.
#![tactic(auto)]

use ucq_terms::Query;

mod candidates;
pub mod laws;
mod marks;
mod reports;
mod store;

pub use candidates::Candidate;
pub use reports::Report;
pub use store::Store;

/// Where a row's work stands.
#[derive(Clone, Copy, Debug, PartialEq, Eq)]
pub enum RowState {
    /// A row of the next level.
    Waiting,
    /// A row of this level that nobody works on.
    Open,
    /// A row that the holder of the claim of this number works on.
    Claimed { number: u64 },
    /// A row whose rewritings are all covered.
    Done,
    /// A row that died before its level came.
    Skipped,
}

/// What a store notes of a row besides its query and its life.
#[derive(Clone, Copy, Debug, PartialEq, Eq)]
pub struct Mark {
    /// How many rewritings lead to the row.
    pub depth: u32,
    pub state: RowState,
}

/// Why a store ends before it is finished.
#[derive(Drop)]
pub enum Cut {
    /// The rows number the budget, and this core is left over.
    Rows { left: Query },
    /// This row has with this rule a rewriting of so many atoms, more than a stored query may have.
    Wide { row: u32, rule: u32, count: u32 },
}

/// A claim of a row. No two claims of a store have one number.
#[derive(Clone, Copy, Debug, PartialEq, Eq)]
pub struct Claim {
    pub row: u32,
    pub number: u64,
}

/// What became of a claim that was given back.
#[derive(Clone, Copy, Debug, PartialEq, Eq)]
pub enum Released {
    /// The row isn't claimed under that number; this is its state, or `None` if there is no such row.
    Strange { state: Option<RowState> },
    /// The row is open again.
    Opened,
}

/// What became of a report.
#[derive(Clone, Copy, Debug, PartialEq, Eq)]
pub enum Published {
    /// The store was cut before, and nothing changed; or this report cut it, and is spent.
    Cut,
    /// There is no such row, or its query or its problem is not the report's. Nothing changed.
    Foreign,
    /// The row isn't claimed under the claim's number; this is its state. Nothing changed.
    Strange { state: RowState },
    /// Each candidate was added as a waiting row one level deeper, or is covered by a live row. The row is done, and the
    /// report is spent.
    Taken,
}
