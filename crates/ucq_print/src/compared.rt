//! The lines that compare queries under the rules, and rules with each other.
ghost use Rattle.std.specs.Prelude.{◌≡◌, ◌++◌, IfOk, OnOk};
ghost use Rattle.ucq_print.specs.Compared.{judged_text, minimal_line as minimal_line_of, rule_line as rule_line_of, told_text, within_line as within_line_of};

use crate::queries::query_line_after;
use itoa::Buffer;
use std::alloc::Global;
use ucq_terms::{Names, NoMemory, Query};

/// What is told of whether a query is contained in another.
#[derive(Clone, Copy, Debug, PartialEq, Eq)]
pub enum Told {
    /// It is.
    Yes,
    /// It isn't.
    No,
    /// Nothing is known.
    Open,
}

/// What is told of whether the other rules imply a rule.
#[derive(Clone, Copy, Debug, PartialEq, Eq)]
pub enum Judged {
    /// They do.
    Follows,
    /// They don't.
    Needed,
    /// Nothing is known.
    Open,
    /// The rule's frontier is too wide to ask.
    Skipped,
}

/// Adds the word of what is told.
fn push_told(line: &mut Vec<u8>, told: Told) -> Result<(), NoMemory>
    ensures { OnOk result (line.new.items ≡ line.old.items ++ told_text told) }
{
    match told {
        Told::Yes => line.extend_from_slice(b"yes")?,
        Told::No => line.extend_from_slice(b"no")?,
        Told::Open => line.extend_from_slice(b"open")?,
    }
    Ok(())
}

/// Adds the word of what is judged.
fn push_judged(line: &mut Vec<u8>, judged: Judged) -> Result<(), NoMemory>
    ensures { OnOk result (line.new.items ≡ line.old.items ++ judged_text judged) }
{
    match judged {
        Judged::Follows => line.extend_from_slice(b"follows")?,
        Judged::Needed => line.extend_from_slice(b"needed")?,
        Judged::Open => line.extend_from_slice(b"open")?,
        Judged::Skipped => line.extend_from_slice(b"skipped")?,
    }
    Ok(())
}

/// The line that tells whether the query of the first number is contained in that of the second. The only error is want of
/// memory.
pub fn within_line(alloc: Global, query: u32, of: u32, told: Told) -> Result<Vec<u8>, NoMemory>
    ensures { IfOk result (λ line. line.items ≡ within_line_of query of told) }
{
    let mut line = Vec::from_slice(alloc, b"% within ")?;
    line.extend_from_slice(Buffer::new().format(query).as_bytes())?;
    line.push(b' ')?;
    line.extend_from_slice(Buffer::new().format(of).as_bytes())?;
    line.push(b' ')?;
    push_told(&mut line, told)?;
    line.push(b'\n')?;
    Ok(line)
}

/// The line of a query without needless atoms. The only error is want of memory.
pub fn minimal_line(alloc: Global, names: &Names, query: &Query) -> Result<Vec<u8>, NoMemory>
    ensures { IfOk result (λ line. line.items ≡ minimal_line_of names.now query.now) }
{
    query_line_after(alloc, b"% minimal ", names, query)
}

/// The line that tells whether the other rules imply that of the number. The only error is want of memory.
pub fn rule_line(alloc: Global, number: u32, judged: Judged) -> Result<Vec<u8>, NoMemory>
    ensures { IfOk result (λ line. line.items ≡ rule_line_of number judged) }
{
    let mut line = Vec::from_slice(alloc, b"% rule ")?;
    line.extend_from_slice(Buffer::new().format(number).as_bytes())?;
    line.push(b' ')?;
    push_judged(&mut line, judged)?;
    line.push(b'\n')?;
    Ok(line)
}
