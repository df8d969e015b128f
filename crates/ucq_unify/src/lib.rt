//! Single-piece unifiers of a query with a rule.
#![tactic(auto)]

mod classes;
mod search;
mod sides;

pub use search::single_pieces;
