//! The job that the words ask for.
ghost use Rattle.std.specs.Prelude.{◌≡◌, map, string_bytes, option_map, IfOk, Some, None, codes};
ghost use Rattle.clap.specs.Walk.{first_of, rows_of};
ghost use Rattle.clap.specs.Matches.{found_of};
ghost use Rattle.ucq_words.specs.Command.{files_in};
ghost use Rattle.ucq_words.specs.Settings.{AnswersJob};

use crate::command::{files_of, value_of};
use crate::numbers::number_of;
use crate::{Job, WordsFault};
use clap::ArgMatches;
use std::alloc::{AllocError, Global};

/// The most files.
const MOST_FILES: usize = 64;

/// The largest input that is made.
const MOST_MADE: u32 = 4_000;

/// The job by clap's matches, where `more` says whether answers are asked for or a mode.
pub(crate) fn job_of(alloc: Global, found: &ArgMatches<'_>, more: bool) -> Result<Job, WordsFault>
    ensures { AnswersJob (first_of (codes "make") (rows_of (found_of found.now)))
        (files_in (rows_of (found_of found.now))) more result }
{
    let names = files_of(found).unwrap_or(&[]);
    match value_of(found, "make") {
        Some(digits) => making(digits, names, more),
        None => reading(alloc, names, more),
    }
}

/// The job with `--make`, which stands beside no file, not beside `--answers`, and beside no mode.
fn making(digits: &str, names: &[&str], more: bool) -> Result<Job, WordsFault>
    ensures { AnswersJob (Some digits.now) (map (λ name. name.now) names.now) more result }
{
    if !names.is_empty() || more {
        return Err(WordsFault::BadWords);
    }
    match number_of(digits.as_bytes(), 1, MOST_MADE) {
        Some(number) => Ok(Job::Make(number)),
        None => Err(WordsFault::BadWords),
    }
}

/// The job without `--make`: to read 1 to 64 files.
fn reading(alloc: Global, names: &[&str], more: bool) -> Result<Job, WordsFault>
    ensures { AnswersJob None (map (λ name. name.now) names.now) more result }
{
    if names.is_empty() || names.len() > MOST_FILES {
        return Err(WordsFault::BadWords);
    }
    Ok(Job::Files(owned(alloc, names)?))
}

/// The names as texts of their own.
fn owned(alloc: Global, names: &[&str]) -> Result<Vec<String>, AllocError>
    ensures { IfOk result (λ all.
        map (λ name. string_bytes name) all.items ≡ map (λ name. name.now) names.now) }
{
    let mut all = Vec::with_capacity(alloc, names.len())?;
    for name in names {
        all.push(String::from_str(alloc, name)?)?;
    }
    Ok(all)
}
