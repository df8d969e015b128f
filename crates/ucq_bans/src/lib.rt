//! Constraints over facts, told by the rows of a store: whether facts violate one, and the smallest sets of them that do.
//!
//! A constraint is a Boolean query. Its store has the rows of its rewriting under the rules, which are then asked of plain
//! facts. Conflicts after M. Arenas, L. Bertossi and J. Chomicki, *Consistent query answers in inconsistent databases*,
//! PODS 1999: minimal inconsistent subsets, here under existential rules.
#![tactic(auto)]

mod bindings;
mod images;
mod judging;
pub mod laws;
mod matching;
mod minimal;
mod search;
mod violations;

pub use judging::judge;
pub use violations::{Conflict, conflicts};

/// Whether facts violate a constraint, as far as the rows of its store tell.
#[derive(Clone, Copy, Debug, PartialEq, Eq)]
pub enum Verdict {
    /// They do: this row, the first that does, live or dead, maps into the facts.
    Violated { row: u32 },
    /// They don't: the store is finished, and no row maps into the facts.
    Consistent,
    /// Nothing is known: the store is cut, and no row maps into the facts.
    Open,
}
