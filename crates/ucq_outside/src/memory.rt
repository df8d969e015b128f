ghost use Rattle.std.specs.Prelude.{◌≡◌, ◌≤◌, ◌<◌, ℕ, List, [], Option, Ok, Some, IfOk, length, vec_len, vec_capacity, ◌+◌, ◌++◌};
ghost use Rattle.ucq_outside.specs.Causes.{HasCause};
ghost use Rattle.ucq_outside.specs.inner.Files.{TakesPiece};
ghost use Rattle.ucq_outside.specs.Sinks.{Pushes, counted_after, sink_after, told};

use crate::files::{Failed, NoMemoryOutside, Sink};
use std::alloc::Global;
use std::marker::Model;

/// How many bytes a sink in memory has room for.
pub const ROOM: usize = 1_048_576;

// Appends a piece for which there is room.
fn keep(bytes: &mut Vec<u8>, piece: &[u8])
    requires { vec_len bytes.old + length piece.now ≤ vec_capacity bytes.old }
    ensures items { bytes.new.items ≡ bytes.old.items ++ piece.now }
    ensures capacity { vec_capacity bytes.old ≤ vec_capacity bytes.new }
{
    bytes.extend_from_slice(piece).unwrap();
}

/// A sink in memory with room for `ROOM` bytes, of which chosen calls fail.
///
/// Calls are numbered from 0. A push fails exactly where its number was chosen or the piece is longer than the room that is
/// left.
#[derive(Drop)]
pub struct MemorySink {
    bytes: Vec<u8>,
    failing: Vec<u64>,
    calls: u64,
    faults: u64,
}

impl Model for MemorySink {
    ghost use Rattle.std.specs.Prelude.{◌≤◌, length, vec_capacity};
    ghost use Rattle.ucq_outside.specs.Sinks.{FailingSink};
    ghost use Rattle.ucq_outside.specs.declared.memory.TheConstants.{ROOM};

    ghost Value = { FailingSink };

    ghost view = { λ s.
        record {
          failing = s.failing.items;
          calls = s.calls;
          faults = s.faults;
          taken = s.bytes.items;
        } };

    ghost invariant = { λ s. (length s.bytes.items ≤ ROOM) × (ROOM ≤ vec_capacity s.bytes) };
}

impl MemorySink {
    /// An empty sink, whose calls with the numbers in `failing` fail.
    ///
    /// `NoMemoryOutside` comes where its room can't be had.
    pub fn new(alloc: Global, failing: Vec<u64>) -> Result<MemorySink, NoMemoryOutside>
        ensures { IfOk result (λ sink.
            sink ≡ record { failing = failing.items; calls = 0; faults = 0; taken = [] }) }
    {
        let bytes = Vec::with_capacity(alloc, ROOM)?;
        Ok(MemorySink {
            bytes,
            failing,
            calls: 0,
            faults: 0,
        })
    }

    /// The bytes that were taken.
    pub fn taken(&self) -> &[u8]
        ensures { result.now ≡ self.now.taken }
    {
        self.bytes.as_slice()
    }
}

impl Sink for MemorySink {
    ghost taken = { λ s. Some s.taken };

    ghost faults = { λ s. s.faults };

    /// TakesPiece a piece whole.
    fn push(&mut self, piece: &[u8]) -> Result<usize, Failed>
        ensures answer { Pushes self.old piece.now result }
        ensures after { self.new ≡ sink_after result piece.now self.old }

        // What each sink ensures.
        ensures bound { IfOk result (λ n. n ≤ length piece.now) }
        ensures some { IfOk result (λ n. 0 < length piece.now → 0 < n) }
        ensures taken { TakesPiece (Some self.old.taken) (Some self.new.taken) piece.now result }
        ensures cause { HasCause self.old.faults self.new.faults result }
    {
        let number = self.calls;
        self.calls = number.saturating_add(1);
        if ROOM - self.bytes.len() < piece.len() || self.failing.contains(&number) {
            self.faults = self.faults.saturating_add(1);
            return Err(Failed);
        }
        keep(&mut self.bytes, piece);
        Ok(piece.len())
    }
}

/// A sink in memory that never fails, with room for `ROOM` bytes.
///
/// A piece that doesn't fit into the room that is left, and each later one, is counted and not kept. From then on the sink
/// tells nothing.
#[derive(Drop)]
pub struct SureSink {
    bytes: Vec<u8>,
    lost: u64,
}

impl Model for SureSink {
    ghost use Rattle.std.specs.Prelude.{◌≤◌, length, vec_capacity};
    ghost use Rattle.ucq_outside.specs.Sinks.{CountingSink};
    ghost use Rattle.ucq_outside.specs.declared.memory.TheConstants.{ROOM};

    ghost Value = { CountingSink };

    ghost view = { λ s. record { taken = s.bytes.items; lost = s.lost } };

    ghost invariant = { λ s. (length s.bytes.items ≤ ROOM) × (ROOM ≤ vec_capacity s.bytes) };
}

impl SureSink {
    /// An empty sink.
    ///
    /// `NoMemoryOutside` comes where its room can't be had.
    pub fn new(alloc: Global) -> Result<SureSink, NoMemoryOutside>
        ensures { IfOk result (λ sink. sink ≡ record { taken = []; lost = 0 }) }
    {
        let bytes = Vec::with_capacity(alloc, ROOM)?;
        Ok(SureSink { bytes, lost: 0 })
    }

    /// The bytes that were kept.
    pub fn taken(&self) -> &[u8]
        ensures { result.now ≡ self.now.taken }
    {
        self.bytes.as_slice()
    }
}

impl Sink for SureSink {
    ghost taken = { told };

    ghost faults = { λ s. 0 };

    /// TakesPiece a piece whole.
    fn push(&mut self, piece: &[u8]) -> Result<usize, Failed>
        ensures answer { result ≡ Ok (length piece.now) }
        ensures after { self.new ≡ counted_after piece.now self.old }

        // What each sink ensures.
        ensures bound { IfOk result (λ n. n ≤ length piece.now) }
        ensures some { IfOk result (λ n. 0 < length piece.now → 0 < n) }
        ensures taken { TakesPiece (told self.old) (told self.new) piece.now result }
        ensures cause { HasCause 0 0 result }
    {
        if self.lost > 0 || ROOM - self.bytes.len() < piece.len() {
            self.lost = self.lost.saturating_add(piece.len() as u64);
            return Ok(piece.len());
        }
        keep(&mut self.bytes, piece);
        Ok(piece.len())
    }
}
