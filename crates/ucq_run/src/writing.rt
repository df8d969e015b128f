//! The writing of whole lines.
ghost use Rattle.std.specs.Prelude.{◌≡◌, ◌≤◌, ◌++◌, ℕ, List, IfErr, IfOk};
ghost use Rattle.ucq_outside.specs.Causes.{Rose};
ghost use Rattle.ucq_outside.specs.Taken.{change_of};
ghost use Rattle.ucq_print.specs.Texts.{lines_text};
ghost use Rattle.ucq_run.specs.inner.Reading.{TookText, IsWritten};

use crate::texts::Text;
use std::alloc::Global;
use ucq_outside::{Failed, Sink};
use ucq_terms::NoMemory;

/// Why a text wasn't written whole.
#[derive(Clone, Copy, Debug, PartialEq, Eq)]
pub enum Unwritten {
    /// The sink failed.
    Failed,
    /// Want of memory for a line.
    Memory,
}

/// Pushes a line until it is taken whole.
pub fn write_line<K: Sink>(sink: &mut K, line: &[u8]) -> Result<(), Failed>
    ensures taken { TookText
        (change_of (K.taken sink.old) (K.taken sink.new) (K.faults sink.old) (K.faults sink.new))
        line.now result }
    ensures later { K.faults sink.old ≤ K.faults sink.new }
    ensures cause { IfErr result (λ _. Rose (K.faults sink.old) (K.faults sink.new)) }
{
    let mut done: usize = 0;
    while done < line.len() {
        done += sink.push(&line[done..])?;
    }
    Ok(())
}

/// Writes these bytes.
pub fn write_bytes<K: Sink>(sink: &mut K, bytes: &[u8]) -> Result<(), Unwritten>
    ensures written { IsWritten
        (change_of (K.taken sink.old) (K.taken sink.new) (K.faults sink.old) (K.faults sink.new))
        bytes.now result }
    ensures later { K.faults sink.old ≤ K.faults sink.new }
{
    match write_line(sink, bytes) {
        Ok(()) => Ok(()),
        Err(Failed) => Err(Unwritten::Failed),
    }
}

/// Writes a line that was made.
pub fn write_made<K: Sink>(sink: &mut K, line: Result<Vec<u8>, NoMemory>) -> Result<(), Unwritten>
    ensures written { (text : List ℕ) →
        IfOk line (λ made. made.items ≡ text) →
        IsWritten
        (change_of (K.taken sink.old) (K.taken sink.new) (K.faults sink.old) (K.faults sink.new))
        text result }
    ensures later { K.faults sink.old ≤ K.faults sink.new }
{
    let line = match line {
        Ok(line) => line,
        Err(NoMemory) => return Err(Unwritten::Memory),
    };
    write_bytes(sink, line.as_slice())
}

/// Writes the header, and then the lines of a text.
pub fn write_headed<K: Sink, T: Text>(
    alloc: Global,
    sink: &mut K,
    header: &[u8],
    text: &T,
) -> Result<(), Unwritten>
    ensures written { IsWritten
        (change_of (K.taken sink.old) (K.taken sink.new) (K.faults sink.old) (K.faults sink.new))
        (header.now ++ lines_text (T.lines text.now)) result }
    ensures later { K.faults sink.old ≤ K.faults sink.new }
{
    write_bytes(sink, header)?;
    write_text(alloc, sink, text)
}

/// Makes and writes the lines of a text, one after the other.
pub fn write_text<K: Sink, T: Text>(alloc: Global, sink: &mut K, text: &T) -> Result<(), Unwritten>
    ensures written { IsWritten
        (change_of (K.taken sink.old) (K.taken sink.new) (K.faults sink.old) (K.faults sink.new))
        (lines_text (T.lines text.now)) result }
    ensures later { K.faults sink.old ≤ K.faults sink.new }
{
    for place in 0..text.len() {
        write_made(sink, text.line(alloc, place))?;
    }
    Ok(())
}
