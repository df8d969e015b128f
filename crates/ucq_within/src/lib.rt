//! Containment of queries under rules, queries without atoms that the rules make needless, and rules that others make
//! needless, told by the rows of a store.
//!
//! A query is contained in another under rules when each of its answers over any facts is one of the other's. After
//! D. S. Johnson and A. Klug, *Testing containment of conjunctive queries under functional and inclusion dependencies*,
//! Journal of Computer and System Sciences 28, 1984, with a rewriting in place of a chase.
#![tactic(auto)]

pub mod containment;
pub mod laws;
mod minimal;
mod needless;

pub use minimal::minimise;
pub use needless::rule_queries;

/// Whether a query is contained in that of a store, under the store's rules.
#[derive(Clone, Copy, Debug, PartialEq, Eq)]
pub enum Within {
    /// It is: this row, the first that does, covers it.
    Yes { row: u32 },
    /// It isn't: the store is finished, and no row covers it.
    No,
    /// Nothing is known: the store is cut, and no row covers it.
    Open,
}
