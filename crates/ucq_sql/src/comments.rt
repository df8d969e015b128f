//! Comments: before the statement of a query, and in place of one that was cut.
ghost use Rattle.std.specs.Prelude.{◌≡◌, ◌++◌, codes, decimal, IfOk, OnOk, option_map, map};
ghost use Rattle.ucq_sql.specs.Comments.{label_text, plain_byte as plain_byte_of, query_comment as query_comment_of, rows_cut_comment as rows_cut_comment_of, wide_cut_comment as wide_cut_comment_of};

use crate::quotes::push_number;
use std::alloc::Global;
use ucq_terms::NoMemory;

/// A space in place of a control byte.
fn plain_byte(byte: u8) -> u8
    ensures { result ≡ plain_byte_of byte }
{
    if byte < 32 { b' ' } else { byte }
}

/// Adds the bytes, with a space in place of each control byte.
fn push_plain(line: &mut Vec<u8>, bytes: &[u8]) -> Result<(), NoMemory>
    ensures { OnOk result (line.new.items ≡ line.old.items ++ map plain_byte_of bytes.now) }
{
    for byte in bytes {
        line.push(plain_byte(*byte))?;
    }
    Ok(())
}

/// Adds a space and the label, if there is one.
fn push_label(line: &mut Vec<u8>, label: Option<&[u8]>) -> Result<(), NoMemory>
    ensures { OnOk
        result
        (line.new.items ≡ line.old.items ++ label_text (option_map (λ l. l.now) label.entry)) }
{
    if let Some(label) = label {
        line.push(b' ')?;
        push_plain(line, label)?;
    }
    Ok(())
}

/// The line before a query's statement: the query's number, from 0, and its label where it has one. A control
/// byte of the label is written as a space, so all of the line is a comment (`laws::lines_are_comments`). The only error is want of
/// memory.
pub fn query_comment(alloc: Global, number: u32, label: Option<&[u8]>) -> Result<Vec<u8>, NoMemory>
    ensures { IfOk result (λ line.
        line.items ≡ query_comment_of number (option_map (λ l. l.now) label.entry)) }
{
    let mut line = Vec::from_slice(alloc, b"-- query ")?;
    push_number(&mut line, u64::from(number))?;
    push_label(&mut line, label)?;
    line.push(b'\n')?;
    Ok(line)
}

/// The line in place of the statement of a query that was cut at this budget. The only error is want of memory.
pub fn rows_cut_comment(alloc: Global, budget: u32) -> Result<Vec<u8>, NoMemory>
    ensures { IfOk result (λ line. line.items ≡ rows_cut_comment_of budget) }
{
    let mut line = Vec::from_slice(alloc, b"-- cut rows ")?;
    push_number(&mut line, u64::from(budget))?;
    line.push(b'\n')?;
    Ok(line)
}

/// The line in place of the statement of a query that was cut at a rewriting that is too wide, of this row with this rule, both
/// from 0. The only error is want of memory.
pub fn wide_cut_comment(alloc: Global, row: u32, rule: u32) -> Result<Vec<u8>, NoMemory>
    ensures { IfOk result (λ line. line.items ≡ wide_cut_comment_of row rule) }
{
    let mut line = Vec::from_slice(alloc, b"-- cut wide row ")?;
    push_number(&mut line, u64::from(row))?;
    line.extend_from_slice(b" rule ")?;
    push_number(&mut line, u64::from(rule))?;
    line.push(b'\n')?;
    Ok(line)
}
