ghost use Rattle.std.specs.Prelude.{◌≡◌, ◌≤◌, ◌<◌, ℕ, List, Option, IfOk, IfSome, length};
ghost use Rattle.ucq_outside.specs.Causes.{HasCause};
ghost use Rattle.ucq_outside.specs.inner.Files.{IsPiece, TakesPiece};

use std::alloc::{AllocError, AllocFailed};

/// A fault of the outside: a file that can't be read, a stream that takes nothing.
#[derive(Clone, Copy, Debug, PartialEq, Eq)]
pub struct Failed;

/// Want of memory.
#[derive(Clone, Copy, Debug, PartialEq, Eq)]
pub struct NoMemoryOutside;

impl From<AllocError> for NoMemoryOutside {
    fn from(_error: AllocError) -> NoMemoryOutside {
        NoMemoryOutside
    }
}

impl<T: Drop> From<AllocFailed<T>> for NoMemoryOutside {
    fn from(_error: AllocFailed<T>) -> NoMemoryOutside {
        NoMemoryOutside
    }
}

/// Where files are read.
pub trait Shelf {
    /// The bytes of the file of a name, where the shelf tells them.
    ghost held: { Self → List ℕ → Option (List ℕ) };

    /// How often the shelf has failed. The count never falls, and may stand still at the last value of u64.
    ghost faults: { Self → ℕ };

    /// Reads bytes of the file `name` from `place` on to the start of `into`, and answers how many.
    ///
    /// For a nonempty `into` the answer is 0 only where `place` is at or past the end of the file. What stands in `into`
    /// behind those bytes, or after a fault, is left open.
    ///
    /// `Failed` comes only where the shelf's count of faults rose in this call.
    fn pull(&mut self, name: &str, place: u64, into: &mut [u8]) -> Result<usize, Failed>
        ensures bound { IfOk result (λ n. n ≤ length into.new) }
        ensures bytes { IfOk result (λ n.
            IfSome (held self.old name.now) (λ file. IsPiece file place n into.new)) }
        ensures held { (n : List ℕ) → held self.new n ≡ held self.old n }
        ensures cause { HasCause (faults self.old) (faults self.new) result };
}

/// Where bytes go.
pub trait Sink {
    /// The bytes that were taken, where the sink tells them.
    ghost taken: { Self → Option (List ℕ) };

    /// How often the sink has failed. The count never falls, and may stand still at the last value of u64.
    ghost faults: { Self → ℕ };

    /// TakesPiece bytes from the start of `piece`, and answers how many: at least 1 of a nonempty piece, and 0 of an empty one.
    ///
    /// `Failed` leaves what was taken, and comes only where the sink's count of faults rose in this call.
    fn push(&mut self, piece: &[u8]) -> Result<usize, Failed>
        ensures bound { IfOk result (λ n. n ≤ length piece.now) }
        ensures some { IfOk result (λ n. 0 < length piece.now → 0 < n) }
        ensures taken { TakesPiece (taken self.old) (taken self.new) piece.now result }
        ensures cause { HasCause (faults self.old) (faults self.new) result };
}

/// What a worker passes between the claim of a row and the publication of what it found, so that a test can hold it there.
pub trait Gate {
    /// Returns when the worker of this number may go on with this row.
    fn pass(&self, worker: u32, row: u32);
}

/// A gate that holds nobody.
#[derive(Clone, Copy, Debug)]
pub struct OpenGate;

impl Gate for OpenGate {
    fn pass(&self, _worker: u32, _row: u32) {}
}
