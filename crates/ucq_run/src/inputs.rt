//! The input of a job: read from its files, or made.
ghost use Rattle.std.specs.Prelude.{◌≡◌, ◌<◌, ◌≤◌, ◌+◌, ◌^◌, IfOk, IfSome, MatchResult, List, ℕ, map, string_bytes, length, vec_len};
ghost use Rattle.ucq_terms.specs.declared.TheConstants.{FACTS, QUERIES, RULES};
ghost use Rattle.ucq_reader.specs.Outcome.{IsFault, byte_count, input_value, texts as texts_of};
ghost use Rattle.ucq_words.specs.Settings.{job_value};
ghost use Rattle.ucq_run.specs.Inputs.{AreFileTexts, IsInputOf, IsJobWithin, IsReadInput};
ghost use Rattle.ucq_run.specs.Causes.{HaveCause, IsJobCause, IsRefusal, IsUnreadAt};

use crate::outcome::Outcome;
use crate::reading::{Unread, read_file};
use std::alloc::Global;
use ucq_lexer::BYTES;
use ucq_outside::Shelf;
use ucq_reader::{Input, ReadFault, made_input, read_files};
use ucq_words::Job;

/// The bytes of the file of this name, which stands at this place among the files, after so many bytes of those before it.
fn read_next<H: Shelf>(
    alloc: Global,
    shelf: &mut H,
    file: u32,
    name: &str,
    total: usize,
) -> Result<Vec<u8>, Outcome>
    requires { total ≤ BYTES }
    ensures read { MatchResult
        result
        (λ bytes.
        IfSome (H.held shelf.old name.now) (λ file. bytes.items ≡ file)
        × (total + length bytes.items ≤ BYTES))
        (λ outcome.
        IsUnreadAt file (H.held shelf.old name.now) total (H.faults shelf.old)
        (H.faults shelf.new) outcome) }
    ensures held { (n : List ℕ) → H.held shelf.new n ≡ H.held shelf.old n }
    ensures later { H.faults shelf.old ≤ H.faults shelf.new }
{
    match read_file(alloc, shelf, name, BYTES - total) {
        Ok(bytes) => Ok(bytes),
        Err(Unread::Failed { at }) => Err(Outcome::ReadFault { file, at }),
        Err(Unread::TooLong) => Err(Outcome::TooLong { file }),
        Err(Unread::Memory) => Err(Outcome::NoMemory),
    }
}

/// The bytes of the files of these names, in their order. Each is read to its end before the next is begun.
fn read_all<H: Shelf>(
    alloc: Global,
    shelf: &mut H,
    names: &[String],
) -> Result<Vec<Vec<u8>>, Outcome>
    requires few { length names.now ≤ 64 }
    ensures files { MatchResult
        result
        (λ files.
        AreFileTexts (H.held shelf.old) (map string_bytes names.now) (texts_of files.items))
        (λ outcome.
        HaveCause (H.held shelf.old) (map string_bytes names.now) (H.faults shelf.old)
        (H.faults shelf.new) outcome) }
    ensures later { H.faults shelf.old ≤ H.faults shelf.new }
{
    let mut files = Vec::new(alloc);
    let mut total: usize = 0;
    for file in 0..names.len() {
        let bytes = match read_next(alloc, shelf, file as u32, names[file].as_str(), total) {
            Ok(bytes) => bytes,
            Err(outcome) => return Err(outcome),
        };
        total += bytes.len();
        files.push(bytes)?;
    }
    Ok(files)
}

/// The outcome of a fault of the reader.
fn refusal(fault: ReadFault) -> Outcome
    ensures { (texts : List (List ℕ)) → IsFault texts fault → IsRefusal texts result }
{
    match fault {
        ReadFault::Memory => Outcome::NoMemory,
        fault => Outcome::Refused { fault },
    }
}

/// The input that the files of these names stand for.
fn read_input<H: Shelf>(alloc: Global, shelf: &mut H, names: &[String]) -> Result<Input, Outcome>
    requires some { 1 ≤ length names.now }
    requires few { length names.now ≤ 64 }
    ensures input { MatchResult
        result
        (λ input.
        IsReadInput (H.held shelf.old) (map string_bytes names.now) (input_value input))
        (λ outcome.
        HaveCause (H.held shelf.old) (map string_bytes names.now) (H.faults shelf.old)
        (H.faults shelf.new) outcome) }
    ensures rules { IfOk result (λ input. length (input_value input).rules ≤ RULES) }
    ensures queries { IfOk result (λ input. length (input_value input).queries ≤ QUERIES) }
    ensures facts { IfOk result (λ input. length (input_value input).facts ≤ FACTS) }
    ensures later { H.faults shelf.old ≤ H.faults shelf.new }
{
    let files = match read_all(alloc, shelf, names) {
        Ok(files) => files,
        Err(outcome) => return Err(outcome),
    };
    match read_files(alloc, files.as_slice()) {
        Ok(input) => Ok(input),
        Err(fault) => Err(refusal(fault)),
    }
}

/// The input of the job, or why there is none.
pub fn input_of<H: Shelf>(alloc: Global, shelf: &mut H, job: &Job) -> Result<Input, Outcome>
    requires { IsJobWithin (job_value job.now) }
    ensures input { MatchResult
        result
        (λ input. IsInputOf (H.held shelf.old) (job_value job.now) (input_value input))
        (λ outcome.
        IsJobCause (H.held shelf.old) (job_value job.now) (H.faults shelf.old)
        (H.faults shelf.new) outcome) }
    ensures rules { IfOk result (λ input. length (input_value input).rules ≤ RULES) }
    ensures queries { IfOk result (λ input. length (input_value input).queries ≤ QUERIES) }
    ensures facts { IfOk result (λ input. length (input_value input).facts ≤ FACTS) }
    ensures later { H.faults shelf.old ≤ H.faults shelf.new }
{
    match job {
        Job::Files(names) => read_input(alloc, shelf, names.as_slice()),
        Job::Make(number) => Ok(made_input(alloc, *number)?),
    }
}
