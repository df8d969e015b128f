//!
//! A search binds variables to terms, atom by atom, in a space that is made once and has room for every stored query. Next
//! comes an atom with the most bound terms; a trail frees what a failed image bound. Each failure tells which atoms had a
//! part in it, and the search goes back to the last of those at once, so that parts of a query that don't meet are not tried
//! in all their combinations. The worst case stays exponential in the number of atoms.
#![tactic(auto)]

pub mod bindings;
mod images;
mod levels;
pub mod matching;
mod order;
mod search;
pub mod signature;
mod space;

pub use order::{number, order_atoms};
pub use signature::Signature;
pub use space::{HomSpace, covers, find_without, may_spare};
