//! The text of a store that was cut, a line at a time.
ghost use Rattle.std.specs.Prelude.{◌≡◌, ◌<◌, ◌≤◌, ℕ, List, length, slice_get, IfOk, Some};
ghost use Rattle.ucq_antichain.specs.Rows.{row_at};
ghost use Rattle.ucq_print.specs.Rows.{rows_lines};
ghost use Rattle.ucq_print.specs.Texts.{left_line, row_line, rows_cut_line, rows_cut_lines, wide_cut_line, wide_cut_lines};

use crate::queries::query_line_after;
use crate::rows::Rows;
use itoa::Buffer;
use std::alloc::Global;
use ucq_store::Cut;
use ucq_terms::{Names, NoMemory, Query};

/// The line that tells the budget.
fn rows_cut_line(alloc: Global, budget: u32) -> Result<Vec<u8>, NoMemory>
    ensures { IfOk result (λ line. line.items ≡ rows_cut_line budget) }
{
    let mut line = Vec::from_slice(alloc, b"% cut rows ")?;
    line.extend_from_slice(Buffer::new().format(budget).as_bytes())?;
    line.push(b'\n')?;
    Ok(line)
}

/// The line that tells the row and the rule of a rewriting that is too wide.
fn wide_cut_line(alloc: Global, row: u32, rule: u32) -> Result<Vec<u8>, NoMemory>
    ensures { IfOk result (λ line. line.items ≡ wide_cut_line row rule) }
{
    let mut line = Vec::from_slice(alloc, b"% cut wide row ")?;
    line.extend_from_slice(Buffer::new().format(row).as_bytes())?;
    line.extend_from_slice(b" rule ")?;
    line.extend_from_slice(Buffer::new().format(rule).as_bytes())?;
    line.push(b'\n')?;
    Ok(line)
}

/// The line of a row, live or dead, with its line feed. The only error is want of memory.
pub fn row_line<R: Rows>(
    alloc: Global,
    names: &Names,
    rows: &R,
    row: u32,
) -> Result<Vec<u8>, NoMemory>
    requires { row < length (R.value rows.now).rows }
    ensures { IfOk result (λ line.
        line.items ≡ row_line names.now (row_at (R.value rows.now).rows row)) }
{
    let life: &[u8] = if rows.is_live_at(row) {
        b""
    } else {
        b"% dead "
    };
    query_line_after(alloc, life, names, rows.query_at(row))
}

/// The line of the core for which there was no room.
fn left_line(alloc: Global, names: &Names, left: &Query) -> Result<Vec<u8>, NoMemory>
    ensures { IfOk result (λ line. line.items ≡ left_line names.now left.now) }
{
    query_line_after(alloc, b"% left ", names, left)
}

/// A line of a store that was cut at its budget.
fn line_of_rows_cut<R: Rows>(
    alloc: Global,
    names: &Names,
    rows: &R,
    left: &Query,
    place: u32,
) -> Result<Vec<u8>, NoMemory>
    requires { place <
        length
        (rows_cut_lines names.now (R.value rows.now).budget (R.value rows.now).rows
        left.now) }
    ensures { IfOk result (λ line.
        slice_get
        (rows_cut_lines names.now (R.value rows.now).budget (R.value rows.now).rows left.now)
        place
        ≡ Some line.items) }
{
    if place == 0 {
        rows_cut_line(alloc, rows.limit())
    } else if place <= rows.count() {
        row_line(alloc, names, rows, place - 1)
    } else {
        left_line(alloc, names, left)
    }
}

/// A line of a store that was cut at a rewriting that is too wide.
fn line_of_wide_cut<R: Rows>(
    alloc: Global,
    names: &Names,
    rows: &R,
    row: u32,
    rule: u32,
    place: u32,
) -> Result<Vec<u8>, NoMemory>
    requires { place < length (wide_cut_lines names.now row rule (R.value rows.now).rows) }
    ensures { IfOk result (λ line.
        slice_get (wide_cut_lines names.now row rule (R.value rows.now).rows) place
        ≡ Some line.items) }
{
    if place == 0 {
        wide_cut_line(alloc, row, rule)
    } else {
        row_line(alloc, names, rows, place - 1)
    }
}

/// How many lines the text of a cut store has. A store that isn't cut has none.
pub fn cut_line_count<R: Rows>(rows: &R) -> u32
    ensures { (names : List (List ℕ)) → result ≡ length (rows_lines names (R.value rows.now)) }
{
    match rows.why_cut() {
        Some(Cut::Rows { .. }) => rows.count() + 2,
        Some(Cut::Wide { .. }) => rows.count() + 1,
        None => 0,
    }
}

/// The line at this place of the text of a cut store, with its line feed. The lines one after another are the text: why
/// the store is cut, each row, live or dead, and the core that is left, if the rows number the budget. The only error is
/// want of memory.
pub fn cut_line<R: Rows>(
    alloc: Global,
    names: &Names,
    rows: &R,
    place: u32,
) -> Result<Vec<u8>, NoMemory>
    requires { place < length (rows_lines names.now (R.value rows.now)) }
    ensures { IfOk result (λ line.
        slice_get (rows_lines names.now (R.value rows.now)) place ≡ Some line.items) }
{
    match rows.why_cut() {
        Some(Cut::Rows { left }) => line_of_rows_cut(alloc, names, rows, left, place),
        Some(Cut::Wide { row, rule, .. }) => {
            line_of_wide_cut(alloc, names, rows, *row, *rule, place)
        }
        None => unreachable!(),
    }
}
