//! The input that words ask for.
ghost use Rattle.std.specs.Prelude.{◌≡◌, ◌<◌, ◌≤◌, ◌+◌, ◌^◌, IfOk, length, vec_len};
ghost use Rattle.ucq_terms.specs.declared.TheConstants.{RULES};
ghost use Rattle.ucq_reader.specs.Outcome.{byte_count, input_value, texts};
ghost use Rattle.ucq_words.specs.Settings.{job_value};
ghost use Rattle.ucq_tally.specs.inner.Asked.{IsWithinLimits};

use crate::faults::{Fault, refusal};
use std::io::{ErrorKind, Read};
use std::{fs, io};
use ucq_lexer::BYTES;
use ucq_reader::{Input, made_input, read_files};
use ucq_words::Job;

/// The bytes of a file up to one more than all files may have.
fn read_some(rt: &HostRuntime, name: &str) -> io::Result<Vec<u8>> {
    let mut bytes = Vec::new(rt.alloc());
    fs::open(rt, name)?
        .take(BYTES as u64 + 1)
        .read_to_end(&mut bytes)?;
    Ok(bytes)
}

/// The bytes of the file of this name and number, after so many bytes of those before it.
fn read_next(rt: &HostRuntime, file: u32, name: &str, total: usize) -> Result<Vec<u8>, Fault>
    requires { total ≤ BYTES }
    ensures { IfOk result (λ bytes. total + vec_len bytes ≤ BYTES) }
{
    match read_some(rt, name) {
        Ok(bytes) if bytes.len() <= BYTES - total => Ok(bytes),
        Ok(_) => Err(Fault::TooLong { file }),
        Err(error) => match error.kind() {
            ErrorKind::OutOfMemory => Err(Fault::Memory),
            _ => Err(Fault::Unreadable { file }),
        },
    }
}

/// The bytes of the files of these names, in their order.
fn read_all(rt: &HostRuntime, names: &[String]) -> Result<Vec<Vec<u8>>, Fault>
    requires { length names.now ≤ 64 }
    ensures many { IfOk result (λ files. vec_len files ≡ length names.now) }
    ensures small { IfOk result (λ files. byte_count (texts files.items) ≤ BYTES) }
{
    let mut files = Vec::new(rt.alloc());
    let mut total: usize = 0;
    for file in 0..names.len() {
        let bytes = read_next(rt, file as u32, names[file].as_str(), total)?;
        total += bytes.len();
        files.push(bytes)?;
    }
    Ok(files)
}

/// The input of the job: read from its files, or made.
pub fn input_of(rt: &HostRuntime, job: &Job) -> Result<Input, Fault>
    requires { IsWithinLimits (job_value job.now) }
    ensures { IfOk result (λ input. length (input_value input).rules ≤ RULES) }
{
    match job {
        Job::Files(names) => {
            let files = read_all(rt, names.as_slice())?;
            match read_files(rt.alloc(), files.as_slice()) {
                Ok(input) => Ok(input),
                Err(fault) => Err(refusal(rt.alloc(), fault)),
            }
        }
        Job::Make(number) => Ok(made_input(rt.alloc(), *number)?),
    }
}
