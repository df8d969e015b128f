//! The error stream's line and the status of an outcome.
ghost use Rattle.std.specs.Prelude.{◌≡◌, ◌≤◌, ◌++◌, IfOk, codes, decimal, string_bytes};
ghost use Rattle.ucq_print.specs.Refusals.{refusal_line};
ghost use Rattle.ucq_run.specs.declared.outcome.Outcome.TheVariants as outcomes;
ghost use Rattle.ucq_run.specs.Outcomes.{outcome_line};
ghost use Rattle.ucq_outside.specs.Taken.{TookLine};
ghost use Rattle.ucq_run.specs.Run.{IsReported, IsTold};

use crate::outcome::Outcome;
use crate::writing::write_line;
use std::alloc::Global;
use ucq_outside::{Failed, Sink};
use ucq_print::refusal_text;
use ucq_reader::ReadFault;
use ucq_terms::NoMemory;

/// The line of a refusal of the reader.
fn refused_line(alloc: Global, fault: ReadFault) -> Result<Vec<u8>, NoMemory>
    ensures { IfOk result (λ line. line.items ≡ refusal_line fault) }
{
    if let ReadFault::Memory = fault {
        return Err(NoMemory);
    }
    let mut line = refusal_text(alloc, &fault)?;
    line.push(b'\n')?;
    Ok(line)
}

/// The line of a pull that failed.
fn read_fault_line(alloc: Global, file: u32, at: u64) -> Result<Vec<u8>, NoMemory>
    ensures { IfOk result (λ line. line.items ≡ outcome_line (outcomes.ReadFault file at)) }
{
    let line = format!(in alloc; "ucq: read fault in file {file} at byte {at}\n")?;
    Ok(line.into_bytes())
}

/// The line of a file that is too long.
fn too_long_line(alloc: Global, file: u32) -> Result<Vec<u8>, NoMemory>
    ensures { IfOk result (λ line. line.items ≡ outcome_line (outcomes.TooLong file)) }
{
    let line = format!(in alloc; "ucq: files too long at file {file}\n")?;
    Ok(line.into_bytes())
}

/// The sink takes the line, or a prefix of it where it fails. The answer is the status.
fn tell<E: Sink>(err: &mut E, line: &[u8], status: u8) -> u8
    ensures status { result ≡ status }
    ensures line { TookLine
        (record {
          taken_before = E.taken err.old;
          taken_after = E.taken err.new;
          faults_before = E.faults err.old;
          faults_after = E.faults err.new;
        })
        line.now }
    ensures later { E.faults err.old ≤ E.faults err.new }
{
    match write_line(err, line) {
        Ok(()) => status,
        Err(Failed) => status,
    }
}

/// The same with a line that was made, or else that of want of memory.
fn tell_made<E: Sink>(err: &mut E, line: Result<Vec<u8>, NoMemory>, status: u8) -> u8
    ensures told { IsTold
        (record {
          taken_before = E.taken err.old;
          taken_after = E.taken err.new;
          faults_before = E.faults err.old;
          faults_after = E.faults err.new;
        })
        line
        status
        result }
    ensures later { E.faults err.old ≤ E.faults err.new }
{
    match line {
        Ok(line) => tell(err, line.as_slice(), status),
        Err(NoMemory) => tell(err, b"ucq: out of memory\n", 1),
    }
}

/// Tells the outcome, and answers its status. Where its line takes memory that isn't there, the outcome is want of memory.
pub fn report<E: Sink>(alloc: Global, err: &mut E, outcome: Outcome) -> u8
    ensures reported { IsReported
        (record {
          taken_before = E.taken err.old;
          taken_after = E.taken err.new;
          faults_before = E.faults err.old;
          faults_after = E.faults err.new;
        })
        outcome
        result }
    ensures later { E.faults err.old ≤ E.faults err.new }
{
    match outcome {
        Outcome::Finished => 0,
        Outcome::Cut => 5,
        Outcome::NoMemory => tell(err, b"ucq: out of memory\n", 1),
        Outcome::BadWords => tell(
            err,
            b"ucq: usage: ucq [--workers N] [--budget N] [--answers] [MODE] FILE... or ucq [--workers N] [--budget N] --make N\n",
            2,
        ),
        Outcome::ReadFault { file, at } => tell_made(err, read_fault_line(alloc, file, at), 3),
        Outcome::TooLong { file } => tell_made(err, too_long_line(alloc, file), 4),
        Outcome::Refused { fault } => tell_made(err, refused_line(alloc, fault), 4),
        Outcome::WriteFault => tell(err, b"ucq: write fault\n", 6),
    }
}
