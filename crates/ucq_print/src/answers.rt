//! The texts of answers, and of the summary of a union and its answers, a line at a time.
ghost use Rattle.std.specs.Prelude.{◌≡◌, ◌<◌, ◌≤◌, ◌^◌, ◌++◌, ℕ, length, slice_get, IfOk, Some, codes, decimal};
ghost use Rattle.ucq_print.specs.Texts.{answer_lines, line_feed, summary_lines};

use itoa::Buffer;
use std::alloc::Global;
use ucq_eval::Answers;
use ucq_terms::NoMemory;

/// These bytes, the number and a line feed.
pub(crate) fn number_line(alloc: Global, before: &[u8], number: u64) -> Result<Vec<u8>, NoMemory>
    ensures { IfOk result (λ line. line.items ≡ before.now ++ decimal number ++ line_feed) }
{
    let mut line = Vec::from_slice(alloc, before)?;
    line.extend_from_slice(Buffer::new().format(number).as_bytes())?;
    line.push(b'\n')?;
    Ok(line)
}

/// The text of a tuple on a line of its own.
fn line_of_text(alloc: Global, text: &[u8]) -> Result<Vec<u8>, NoMemory>
    ensures { IfOk result (λ line. line.items ≡ codes "% " ++ text.now ++ line_feed) }
{
    let mut line = Vec::from_slice(alloc, b"% ")?;
    line.extend_from_slice(text)?;
    line.push(b'\n')?;
    Ok(line)
}

/// How many lines these answers have.
pub fn answer_line_count(answers: &Answers) -> u64
    ensures lines { result ≡ length (answer_lines answers.now.names answers.now.tuples) }
    ensures few { result ≤ 2 ^ 63 }
{
    answers.len() as u64 + 1
}

/// The line at this place of the answers, with its line feed: how many there are, and then each of them. No text of a tuple
/// is made anew. The only error is want of memory.
pub fn answer_line(alloc: Global, answers: &Answers, place: u64) -> Result<Vec<u8>, NoMemory>
    requires { place < length (answer_lines answers.now.names answers.now.tuples) }
    ensures { IfOk result (λ line.
        slice_get (answer_lines answers.now.names answers.now.tuples) place ≡ Some line.items) }
{
    match place {
        0 => number_line(alloc, b"% answers ", answers.len() as u64),
        _ => line_of_text(alloc, answers.text((place - 1) as usize)),
    }
}

/// How many lines the summary has.
pub fn summary_line_count() -> u64
    ensures { (queries atoms answers : ℕ) → result ≡ length (summary_lines queries atoms answers) }
{
    4
}

/// The line at this place of the summary, with its line feed: that the union is finished, and how many queries, atoms and
/// answers there are. The only error is want of memory.
pub fn summary_line(
    alloc: Global,
    queries: u64,
    atoms: u64,
    answers: u64,
    place: u64,
) -> Result<Vec<u8>, NoMemory>
    requires { place < length (summary_lines queries atoms answers) }
    ensures { IfOk result (λ line.
        slice_get (summary_lines queries atoms answers) place ≡ Some line.items) }
{
    match place {
        0 => Ok(Vec::from_slice(alloc, b"% finished\n")?),
        1 => number_line(alloc, b"% queries ", queries),
        2 => number_line(alloc, b"% atoms ", atoms),
        _ => number_line(alloc, b"% answers ", answers),
    }
}
