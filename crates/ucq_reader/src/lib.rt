//! The statements of a file, and the input that files stand for.
#![tactic(auto)]

ghost use Rattle.std.specs.Prelude.{◌≡◌};
ghost use Rattle.ucq_reader.specs.declared.ReadFault.TheVariants.{Memory};

pub use files::read_files;
pub use input::{Asked, Input, Label};
pub use made::made_input;
use std::alloc::{AllocError, AllocFailed};
use ucq_terms::NoMemory;

mod building;
mod faults;
mod files;
mod gathered;
mod input;
pub mod laws;
mod made;
mod names;
mod parse;
mod stages;
mod syntax;

/// A form of the grammar that is read and not built.
#[derive(Clone, Copy, Debug, PartialEq, Eq)]
pub enum NotBuiltKind {
    Base,
    Top,
    Constraint,
}

/// A limit of one statement, in the order in which they are tried.
#[derive(Clone, Copy, Debug, PartialEq, Eq)]
pub enum Which {
    /// 1,024 bytes of the text of a name, a constant or a number.
    Name,
    /// 16 terms of an atom.
    Arity,
    /// 16 terms of an answer list.
    Answers,
    /// 32 atoms of a head, and of a body. A fact statement has no such limit.
    Atoms,
}

/// A limit of all files together.
#[derive(Clone, Copy, Debug, PartialEq, Eq)]
pub enum Whole {
    /// 4,096 rules.
    Rules,
    /// 1,048,576 atoms of fact statements, as they are written.
    Facts,
    /// 64 queries.
    Queries,
}

/// Why files are refused. Files are numbered from 0, statements from 0 in their file, and places are those of bytes.
#[derive(Clone, Copy, Debug, PartialEq, Eq)]
pub enum ReadFault {
    /// The first byte at which no token, white space or comment begins.
    BadByte {
        file: u32,
        at: u32,
    },
    /// The token that begins at `at` goes on with no statement, after the earlier tokens of statement `number`.
    BadStatement {
        file: u32,
        number: u32,
        at: u32,
    },
    /// The file ends inside the statement that begins at `at`.
    OpenEnd {
        file: u32,
        at: u32,
    },
    /// The prefix of the token at `at` isn't declared earlier in its file.
    UnknownPrefix {
        file: u32,
        at: u32,
    },
    /// The statement is of a form that isn't built.
    NotBuilt {
        file: u32,
        number: u32,
        kind: NotBuiltKind,
    },
    /// The first limit that the statement passes, and the first number that passes it.
    Limit {
        file: u32,
        number: u32,
        which: Which,
        count: u32,
    },
    /// The answer term at this place, the first such, is a variable of no atom of the query.
    Unsafe {
        file: u32,
        number: u32,
        place: u32,
    },
    /// All files together have this many, more than the limit.
    TooMany {
        which: Whole,
        count: u32,
    },
    /// No file has a query.
    NoQuery,
    /// Want of memory. It may come at any place.
    Memory,
}

impl From<AllocError> for ReadFault {
    ghost from_gives = { λ _ e. e ≡ Memory };

    fn from(_e: AllocError) -> ReadFault {
        ReadFault::Memory
    }
}

impl<T: Drop> From<AllocFailed<T>> for ReadFault {
    ghost from_gives = { λ _ e. e ≡ Memory };

    fn from(_e: AllocFailed<T>) -> ReadFault {
        ReadFault::Memory
    }
}

impl From<NoMemory> for ReadFault {
    ghost from_gives = { λ _ e. e ≡ Memory };

    fn from(_e: NoMemory) -> ReadFault {
        ReadFault::Memory
    }
}
