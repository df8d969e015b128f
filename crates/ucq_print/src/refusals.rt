//! The texts of the reader's refusals.
ghost use Rattle.std.specs.Prelude.{◌≡◌, ◌≢◌, ◌++◌, IfOk, codes, decimal, string_bytes};
ghost use Rattle.ucq_reader.specs.declared.ReadFault.TheVariants as faults;
ghost use Rattle.ucq_print.specs.Refusals.{byte_text, limit_text, statement_text, kind_word, limit_word, refusal_text, whole_word};

use std::alloc::{AllocError, Global};
use ucq_reader::{NotBuiltKind, ReadFault, Which, Whole};
use ucq_terms::NoMemory;

/// The word of a form that isn't built.
fn kind_word(kind: NotBuiltKind) -> &'static str
    ensures { result.now ≡ kind_word kind }
{
    match kind {
        NotBuiltKind::Base => "base",
        NotBuiltKind::Top => "top",
        NotBuiltKind::Constraint => "constraint",
    }
}

/// The word of a limit of one statement.
fn limit_word(which: Which) -> &'static str
    ensures { result.now ≡ limit_word which }
{
    match which {
        Which::Name => "name",
        Which::Arity => "arity",
        Which::Answers => "answers",
        Which::Atoms => "atoms",
    }
}

/// The word of a limit of all files together.
fn whole_word(which: Whole) -> &'static str
    ensures { result.now ≡ whole_word which }
{
    match which {
        Whole::Rules => "rules",
        Whole::Facts => "facts",
        Whole::Queries => "queries",
    }
}

/// What is wrong at a byte of a file.
fn byte_text(alloc: Global, file: u32, at: u32, what: &str) -> Result<String, AllocError>
    ensures { IfOk result (λ text. string_bytes text ≡ byte_text file at what.now) }
{
    format!(in alloc; "ucq: file {file} byte {at}: {what}")
}

/// What is wrong in a statement of a file.
fn statement_text(alloc: Global, file: u32, number: u32, what: &str) -> Result<String, AllocError>
    ensures { IfOk result (λ text. string_bytes text ≡ statement_text file number what.now) }
{
    format!(in alloc; "ucq: file {file} statement {number}{what}")
}

/// A limit that is passed.
fn limit_text(alloc: Global, word: &str, count: u32) -> Result<String, AllocError>
    ensures { IfOk result (λ text. string_bytes text ≡ limit_text word.now count) }
{
    format!(in alloc; "{word} limit passed with {count}")
}

fn bad_statement_text(alloc: Global, at: u32) -> Result<String, AllocError>
    ensures { IfOk result (λ text.
        string_bytes text ≡ codes " byte " ++ decimal at ++ codes ": bad statement") }
{
    format!(in alloc; " byte {at}: bad statement")
}

fn not_built_text(alloc: Global, kind: NotBuiltKind) -> Result<String, AllocError>
    ensures { IfOk result (λ text.
        string_bytes text ≡ codes ": " ++ kind_word kind ++ codes " is not built") }
{
    let word = kind_word(kind);
    format!(in alloc; ": {word} is not built")
}

fn unsafe_text(alloc: Global, place: u32) -> Result<String, AllocError>
    ensures { IfOk result (λ text.
        string_bytes text ≡ codes ": answer " ++ decimal place ++ codes " is not in the body") }
{
    format!(in alloc; ": answer {place} is not in the body")
}

fn statement_limit_text(alloc: Global, which: Which, count: u32) -> Result<String, AllocError>
    ensures { IfOk result (λ text.
        string_bytes text ≡ codes ": " ++ limit_text (limit_word which) count) }
{
    let text = limit_text(alloc, limit_word(which), count)?;
    format!(in alloc; ": {text}")
}

fn many_text(alloc: Global, which: Whole, count: u32) -> Result<String, AllocError>
    ensures { IfOk result (λ text.
        string_bytes text ≡ codes "ucq: " ++ limit_text (whole_word which) count) }
{
    let text = limit_text(alloc, whole_word(which), count)?;
    format!(in alloc; "ucq: {text}")
}

/// The text of a refusal of the reader, which is not want of memory.
fn refusal(alloc: Global, fault: ReadFault) -> Result<String, AllocError>
    requires { fault ≢ faults.Memory }
    ensures { IfOk result (λ text. string_bytes text ≡ refusal_text fault) }
{
    match fault {
        ReadFault::BadByte { file, at } => byte_text(alloc, file, at, "bad byte"),
        ReadFault::BadStatement { file, number, at } => {
            let text = bad_statement_text(alloc, at)?;
            statement_text(alloc, file, number, text.as_str())
        }
        ReadFault::OpenEnd { file, at } => byte_text(alloc, file, at, "statement not ended"),
        ReadFault::UnknownPrefix { file, at } => byte_text(alloc, file, at, "unknown prefix"),
        ReadFault::NotBuilt { file, number, kind } => {
            let text = not_built_text(alloc, kind)?;
            statement_text(alloc, file, number, text.as_str())
        }
        ReadFault::Limit {
            file,
            number,
            which,
            count,
        } => {
            let text = statement_limit_text(alloc, which, count)?;
            statement_text(alloc, file, number, text.as_str())
        }
        ReadFault::Unsafe {
            file,
            number,
            place,
        } => {
            let text = unsafe_text(alloc, place)?;
            statement_text(alloc, file, number, text.as_str())
        }
        ReadFault::TooMany { which, count } => many_text(alloc, which, count),
        ReadFault::NoQuery => format!(in alloc; "ucq: no query"),
        ReadFault::Memory => unreachable!(),
    }
}

/// The text of a refusal of the reader, without a line feed. The fault is not want of memory, which refuses nothing. The
/// only error is want of memory.
pub fn refusal_text(alloc: Global, fault: &ReadFault) -> Result<Vec<u8>, NoMemory>
    requires { fault.now ≢ faults.Memory }
    ensures { IfOk result (λ text. text.items ≡ refusal_text fault.now) }
{
    let text = refusal(alloc, *fault)?;
    Ok(text.into_bytes())
}
