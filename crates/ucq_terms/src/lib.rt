//! Terms, atoms, rules, queries, problems and unions, as the code holds them and as contracts see them.
//!
//! The definitions that the whole product speaks of stand in `specs/`: syntax, homomorphisms and cores, the chase,
//! piece-unifiers, one-step rewritings, unions. Each type here is seen by contracts as the record of the same name there.
#![tactic(auto)]

ghost use Rattle.ucq_terms.specs.declared.NoMemory.{NoMemory};

mod atom_lists;
mod atoms;
mod naming;
mod piece_list;
mod problems;
mod queries;
mod rules;
mod text;
mod unions;
mod variables;

pub use atoms::Atom;
pub use naming::Names;
pub use piece_list::Piece;
pub use problems::Problem;
pub use queries::{Query, QueryFault};
pub use rules::Rule;
use std::alloc::{AllocError, AllocFailed};
pub use unions::Union;

/// The most atoms that a stored query has.
pub const ATOMS: u32 = 128;

/// Every variable of a stored query has a number below this one.
pub const VARIABLES: u32 = 4_096;

/// The most rules that a problem has.
pub const RULES: u32 = 4_096;

/// The most queries that an input has.
pub const QUERIES: u32 = 64;

/// The most atoms of facts that an input has.
pub const FACTS: u32 = 1_048_576;

/// The most rows that a budget allows.
pub const ROWS: u32 = 65_536;

/// A term of an atom or of an answer list. A constant is the number of its text; a variable has a number of its own
/// within its query or rule.
#[derive(Clone, Copy, Debug, PartialEq, Eq, PartialOrd, Ord, Hash)]
pub enum Term {
    Constant(u32),
    Variable(u32),
}

/// Want of memory.
#[derive(Clone, Copy, Debug, PartialEq, Eq)]
pub struct NoMemory;

impl From<AllocError> for NoMemory {
    fn from(_error: AllocError) -> NoMemory {
        NoMemory
    }
}

impl<T: Drop> From<AllocFailed<T>> for NoMemory {
    fn from(_error: AllocFailed<T>) -> NoMemory {
        NoMemory
    }
}
