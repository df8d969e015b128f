//! The words of the command line, after the program's name: `[--workers N] [--budget N] [--answers] [--within] FILE...`, or
//! `[--workers N] [--budget N] --make N`.
//!
//! One simple command of `clap` takes them. So options stand before, between or after files, `--budget=9` is `--budget 9`,
//! and behind `--` every word is a file. Words that begin with a dash and are none of these options are refused, `--help`
//! and `-h` among them, and so is an option that is given twice. By the same definition a lone `-` is a file, and so is an
//! empty word where no option waits for its value.
#![tactic(auto)]

ghost use Rattle.std.specs.Prelude.{◌≡◌, ◌||◌, map, string_bytes};
ghost use Rattle.ucq_words.specs.Settings.{AnswersWords, OneSettings, mode_by};

mod command;
mod jobs;
mod numbers;
mod values;

use command::{is_given, matches, value_of};
use jobs::job_of;
use numbers::number_or;
use std::alloc::{AllocError, Global};
pub use values::{Job, Mode, Settings};

/// The workers where their number isn't given.
const WORKERS: u32 = 1;

/// The most workers.
const MOST_WORKERS: u32 = 64;

/// The budget where none is given.
const BUDGET: u32 = 4_096;

/// The most rows of any budget.
const MOST_ROWS: u32 = 65_536;

/// Why words give no settings.
#[derive(Clone, Copy, Debug, PartialEq, Eq)]
pub enum WordsFault {
    /// The words stand for no settings.
    BadWords,
    /// Want of memory.
    Memory,
}

impl From<AllocError> for WordsFault {
    ghost use Rattle.std.specs.Prelude.{◌≡◌};
    ghost use Rattle.ucq_words.specs.declared.WordsFault.TheVariants.{Memory};

    ghost from_gives = { λ _ e. e ≡ Memory };

    fn from(_fault: AllocError) -> WordsFault {
        WordsFault::Memory
    }
}

/// The settings that the words stand for: each number is 1 to 9 digits and in its range; without `--make` there are 1 to 64
/// files, and with it there is none, no `--answers` and no `--within`.
pub fn settings(alloc: Global, words: &[String]) -> Result<Settings, WordsFault>
    ensures { AnswersWords (map (λ w. string_bytes w) words.now) result }
{
    let found = matches(alloc, words)?;
    let workers = number_or(value_of(&found, "workers"), 1, MOST_WORKERS, WORKERS);
    let budget = number_or(value_of(&found, "budget"), 1, MOST_ROWS, BUDGET);
    let (Some(workers), Some(budget)) = (workers, budget) else {
        return Err(WordsFault::BadWords);
    };
    let answers = is_given(&found, "answers");
    let within = is_given(&found, "within");
    let job = job_of(alloc, &found, either(answers, within))?;
    Ok(Settings {
        workers,
        budget,
        answers,
        mode: mode_by(within),
        job,
    })
}

/// Whether one of the two is given.
fn either(answers: bool, within: bool) -> bool
    ensures { result ≡ (answers || within) }
{
    answers || within
}

/// The mode, by whether `--within` is given.
fn mode_by(within: bool) -> Mode
    ensures { result ≡ mode_by within }
{
    if within { Mode::Within } else { Mode::Plain }
}

/// Words stand for at most one settings.
pub fn one_settings()
    ensures { OneSettings }
{}
