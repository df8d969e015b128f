//! What words stand for.
use crate::asserts::{reads, sure};
use std::alloc::{AllocError, Global};
use std::process::Abort;
use ucq_words::{Job, Settings, WordsFault, settings};

/// Words, each after a bar, and the workers, the budget, whether answers are printed, and the files or the size that they
/// stand for.
const TAKEN: [(&str, &str); 19] = [
    ("|f", "1 4096 false f"),
    ("|--workers|8|f", "8 4096 false f"),
    ("|--workers|64|f", "64 4096 false f"),
    ("|--budget|65536|f", "1 65536 false f"),
    ("|--budget=2|f", "1 2 false f"),
    ("|--budget|007|f", "1 7 false f"),
    ("|--budget|000000009|f", "1 9 false f"),
    ("|f|--answers|g", "1 4096 true f g"),
    ("|g|f|g", "1 4096 false g f g"),
    ("|f|--workers|2|g|--budget|3", "2 3 false f g"),
    ("|--make|4000", "1 4096 false make 4000"),
    ("|--make=1|--workers=2", "2 4096 false make 1"),
    ("|--make|3|--budget|2", "1 2 false make 3"),
    ("|--|--make", "1 4096 false --make"),
    ("|--answers|--|-x|--", "1 4096 true -x --"),
    ("|-", "1 4096 false -"),
    ("|", "1 4096 false "),
    ("||f", "1 4096 false  f"),
    ("|workers|--budget|1", "1 1 false workers"),
];

/// Words, each after a bar, that stand for no settings.
const REFUSED: [&str; 36] = [
    "",
    "|--",
    "|--workers|0|f",
    "|--workers|65|f",
    "|--workers|8",
    "|--budget|0|f",
    "|--budget|65537|f",
    "|--budget|1234567890|f",
    "|--budget|0000000001|f",
    "|--budget|4294967297|f",
    "|--budget|+5|f",
    "|--budget|-5|f",
    "|--budget|5a|f",
    "|--budget| 5|f",
    "|--budget||f",
    "|--budget=|f",
    "|f|--budget",
    "|--budget|f",
    "|--budget|--answers|f",
    "|--budget|--|f",
    "|--budget|1|--budget|1|f",
    "|--workers|1|--workers=1|f",
    "|--make|1|--make|1",
    "|--make|0",
    "|--make|4001",
    "|--make|1|f",
    "|--make|1|",
    "|--make|1|--answers",
    "|--answers|--answers|f",
    "|--answers=true|f",
    "|-h",
    "|--help",
    "|--version|f",
    "|-x|f",
    "|--unknown|f",
    "|--work|2|f",
];

/// The words of a text that has a bar before each.
fn owned(alloc: Global, text: &str) -> Result<Vec<String>, AllocError> {
    let mut words = Vec::new(alloc);
    for word in text.split('|').skip(1) {
        words.push(String::from_str(alloc, word)?)?;
    }
    Ok(words)
}

/// The names, with a space before each.
fn joined(alloc: Global, names: &[String]) -> Result<String, AllocError> {
    let mut text = String::new(alloc);
    for name in names {
        write!(text, " {name}")?;
    }
    Ok(text)
}

/// The job as the end of a line.
fn job_of(rt: &impl Abort, alloc: Global, job: &Job) -> String {
    match job {
        Job::Make(number) => sure(rt, format!(in alloc; " make {number}")),
        Job::Files(names) => sure(rt, joined(alloc, names.as_slice())),
    }
}

/// The settings as a line.
fn line_of(rt: &impl Abort, alloc: Global, found: &Settings) -> String {
    let job = job_of(rt, alloc, &found.job);
    let (workers, budget, answers) = (found.workers, found.budget, found.answers);
    sure(rt, format!(in alloc; "{workers} {budget} {answers}{job}"))
}

/// The settings that the words stand for as a line, or `none`.
fn told(rt: &impl Abort, alloc: Global, text: &str) -> String {
    let words = sure(rt, owned(alloc, text));
    match settings(alloc, words.as_slice()) {
        Ok(found) => line_of(rt, alloc, &found),
        Err(WordsFault::BadWords) => sure(rt, String::from_str(alloc, "none")),
        Err(WordsFault::Memory) => panic!(rt; "no memory"),
    }
}

/// Asserts of words what settings they stand for.
fn assert_taken(rt: &impl Abort, alloc: Global, rows: &[(&str, &str)]) {
    for (text, wanted) in rows {
        reads(rt, told(rt, alloc, text).as_str(), wanted, text);
    }
}

#[test]
fn words_stand_for_settings(rt: HostRuntime) {
    assert_taken(&rt, rt.alloc(), &TAKEN);
}

/// Asserts of words that they stand for no settings.
fn assert_refused(rt: &impl Abort, alloc: Global, rows: &[&str]) {
    for text in rows {
        reads(rt, told(rt, alloc, text).as_str(), "none", text);
    }
}

#[test]
fn other_words_stand_for_none(rt: HostRuntime) {
    assert_refused(&rt, rt.alloc(), &REFUSED);
}

/// That many files, each with this before it.
fn files(rt: &impl Abort, alloc: Global, each: &str, count: usize) -> String {
    sure(rt, each.repeat(alloc, count))
}

#[test]
fn there_are_at_most_64_files(rt: HostRuntime) {
    let alloc = rt.alloc();
    let (most, more) = (files(&rt, alloc, "|f", 64), files(&rt, alloc, "|f", 65));
    let names = files(&rt, alloc, " f", 64);
    let line = sure(&rt, format!(in alloc; "1 4096 false{names}"));
    assert_taken(&rt, alloc, &[(most.as_str(), line.as_str())]);
    assert_refused(&rt, alloc, &[more.as_str()]);
}
