//! Aggregates of single-piece unifiers of a query with a rule, one after another.
//!
//! A walk goes through the sets of pieces as through the words of a dictionary, in rising order of place. It turns back at
//! the first set whose pieces overlap or whose classes have two constants, and never looks at what goes on from there, since
//! all of it overlaps or clashes too.
#![tactic(auto)]

mod copies;
mod joined;
mod joins;
mod links;
mod search;

pub use joined::Joined;
pub use joins::Joins;
