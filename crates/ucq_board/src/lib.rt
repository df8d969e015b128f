//! Boards on which threads claim rows: each row is drawn by one seat, and nobody waits.
#![tactic(auto)]

mod board;
pub mod laws;
mod rule;

pub use board::{Board, Closed, Seat};
use std::alloc::{AllocError, AllocFailed};

/// The most rows of a board.
pub const ROWS: u32 = 65_536;

/// The most seats of a board.
pub const SEATS: u32 = 128;

/// Want of memory.
#[derive(Clone, Copy, Debug, PartialEq, Eq)]
pub struct NoMemory;

impl From<AllocError> for NoMemory {
    fn from(_error: AllocError) -> NoMemory {
        NoMemory
    }
}

impl<T: Drop> From<AllocFailed<T>> for NoMemory {
    fn from(_error: AllocFailed<T>) -> NoMemory {
        NoMemory
    }
}
