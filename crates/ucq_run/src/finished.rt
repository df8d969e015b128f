//! The writing of what was found.
ghost use Rattle.std.specs.Prelude.{All, ◌≡◌, ◌≤◌, ◌++◌, IfOk, codes};
ghost use Rattle.ucq_terms.specs.Syntax.{HasEachOnce};
ghost use Rattle.ucq_antichain.specs.Rows.{live_queries};
ghost use Rattle.ucq_outside.specs.Taken.{change_of};
ghost use Rattle.ucq_print.specs.Texts.{answered_text, atom_count, count_line, finished_text};
ghost use Rattle.ucq_run.specs.inner.Reading.{IsWritten};
ghost use Rattle.ucq_run.specs.inner.Written.{row_texts};

use crate::texts::AnswersText;
use crate::writing::{Unwritten, write_bytes, write_made, write_text};
use std::alloc::Global;
use ucq_eval::Answers;
use ucq_outside::Sink;
use ucq_print::{Rows, live_count, query_count_line, row_line};
use ucq_terms::{Names, NoMemory};

/// Writes the queries of the live rows, each on a line.
fn write_live<K: Sink, R: Rows>(
    alloc: Global,
    sink: &mut K,
    names: &Names,
    rows: &R,
) -> Result<(), Unwritten>
    ensures written { IsWritten
        (change_of (K.taken sink.old) (K.taken sink.new) (K.faults sink.old) (K.faults sink.new))
        (row_texts names.now (R.value rows.now).rows) result }
    ensures later { K.faults sink.old ≤ K.faults sink.new }
{
    for row in 0..rows.count() {
        if rows.is_live_at(row) {
            write_made(sink, row_line(alloc, names, rows, row))?;
        }
    }
    Ok(())
}

/// The line that tells that the union is finished.
fn finished_mark(alloc: Global) -> Result<Vec<u8>, NoMemory>
    ensures { IfOk result (λ line. line.items ≡ codes "% finished\n") }
{
    Ok(Vec::from_slice(alloc, b"% finished\n")?)
}

/// Writes the lines before the queries: what was found, and how many queries there are.
fn write_head<K: Sink>(alloc: Global, sink: &mut K, count: u32) -> Result<(), Unwritten>
    ensures written { IsWritten
        (change_of (K.taken sink.old) (K.taken sink.new) (K.faults sink.old) (K.faults sink.new))
        (codes "% finished\n" ++ count_line count) result }
    ensures later { K.faults sink.old ≤ K.faults sink.new }
{
    write_made(sink, finished_mark(alloc))?;
    write_made(sink, query_count_line(alloc, count))
}

/// Writes the finished text of the live rows.
fn write_union<K: Sink, R: Rows>(
    alloc: Global,
    sink: &mut K,
    names: &Names,
    rows: &R,
) -> Result<(), Unwritten>
    ensures written { IsWritten
        (change_of (K.taken sink.old) (K.taken sink.new) (K.faults sink.old) (K.faults sink.new))
        (finished_text names.now (live_queries (R.value rows.now).rows)) result }
    ensures later { K.faults sink.old ≤ K.faults sink.new }
{
    write_head(alloc, sink, live_count(rows))?;
    write_live(alloc, sink, names, rows)
}

/// Writes the header and the finished text of the live rows.
pub fn write_finished<K: Sink, R: Rows>(
    alloc: Global,
    sink: &mut K,
    header: &[u8],
    names: &Names,
    rows: &R,
) -> Result<(), Unwritten>
    ensures written { IsWritten
        (change_of (K.taken sink.old) (K.taken sink.new) (K.faults sink.old) (K.faults sink.new))
        (header.now ++ finished_text names.now (live_queries (R.value rows.now).rows)) result }
    ensures later { K.faults sink.old ≤ K.faults sink.new }
{
    write_bytes(sink, header)?;
    write_union(alloc, sink, names, rows)
}

/// Writes the header, the finished text of the live rows, and the answers.
pub fn write_answered<K: Sink, R: Rows>(
    alloc: Global,
    sink: &mut K,
    header: &[u8],
    names: &Names,
    rows: &R,
    answers: &Answers,
) -> Result<(), Unwritten>
    requires { answers.now.names ≡ names.now }
    ensures written { IsWritten
        (change_of (K.taken sink.old) (K.taken sink.new) (K.faults sink.old) (K.faults sink.new))
        (header.now
        ++ answered_text names.now (live_queries (R.value rows.now).rows) answers.now.tuples)
        result }
    ensures later { K.faults sink.old ≤ K.faults sink.new }
{
    write_finished(alloc, sink, header, names, rows)?;
    write_text(alloc, sink, &AnswersText { answers })
}

/// How many atoms the queries of the live rows have together.
pub fn atom_count<R: Rows>(rows: &R) -> u64
    ensures count { result ≡ atom_count (live_queries (R.value rows.now).rows) }
    ensures once { All (λ q. HasEachOnce q.atoms) (live_queries (R.value rows.now).rows) }
{
    let mut count: u64 = 0;
    for row in 0..rows.count() {
        if rows.is_live_at(row) {
            count += rows.query_at(row).atoms().len() as u64;
        }
    }
    count
}
