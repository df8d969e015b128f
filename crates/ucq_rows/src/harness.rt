//! Runs over files and sinks in memory.
use crate::asserts::sure;
use std::alloc::{AllocError, Global};
use std::process::Abort;
use std::sync::Wait;
use std::thread::Threads;
use ucq_outside::{Gate, MemoryShelf, MemorySink, OpenGate};
use ucq_run::{run, run_alone};

/// What a run answered, printed and told.
#[derive(Drop)]
pub(crate) struct Told {
    pub status: u8,
    pub out: Vec<u8>,
    pub err: Vec<u8>,
}

impl Told {
    /// Whether the run ended so.
    pub(crate) fn is(&self, status: u8, out: &str, err: &str) -> bool {
        self.status == status
            && self.out.as_slice() == out.as_bytes()
            && self.err.as_slice() == err.as_bytes()
    }

    /// Whether the run ended with this status, and its output begins so.
    pub(crate) fn begins(&self, status: u8, beginning: &str) -> bool {
        self.status == status && self.out.as_slice().starts_with(beginning.as_bytes())
    }
}

/// The words of a text that has spaces between them.
fn words_of(alloc: Global, text: &str) -> Result<Vec<String>, AllocError> {
    let mut words = Vec::new(alloc);
    for word in text.split_whitespace() {
        words.push(String::from_str(alloc, word)?)?;
    }
    Ok(words)
}

/// A sink whose calls in the list fail.
fn sink(rt: &impl Abort, alloc: Global, failing: &[u64]) -> MemorySink {
    let failing = sure(rt, failing.to_vec(alloc));
    sure(rt, MemorySink::new(alloc, failing))
}

fn held(alloc: Global, files: &[(&str, &[u8])]) -> Result<Vec<(String, Vec<u8>)>, AllocError> {
    let mut held = Vec::new(alloc);
    for (name, bytes) in files {
        let name = String::from_str(alloc, name)?;
        held.push((name, bytes.to_vec(alloc)?))?;
    }
    Ok(held)
}

/// A shelf that holds these files. The pulls in the list fail.
fn shelf(rt: &impl Abort, alloc: Global, files: &[(&str, &[u8])], pulls: &[u64]) -> MemoryShelf {
    let held = sure(rt, held(alloc, files));
    MemoryShelf::new(held, sure(rt, pulls.to_vec(alloc)))
}

fn told_by(rt: &impl Abort, alloc: Global, status: u8, out: &MemorySink, err: &MemorySink) -> Told {
    Told {
        status,
        out: sure(rt, out.taken().to_vec(alloc)),
        err: sure(rt, err.taken().to_vec(alloc)),
    }
}

/// Runs the words alone over these files. The calls of the shelf, of the output and of the error stream in the lists fail.
pub(crate) fn run_failing(
    rt: &impl Abort,
    alloc: Global,
    words: &str,
    files: &[(&str, &[u8])],
    failing: (&[u64], &[u64], &[u64]),
) -> Told {
    let mut shelf = shelf(rt, alloc, files, failing.0);
    let (mut out, mut err) = (sink(rt, alloc, failing.1), sink(rt, alloc, failing.2));
    let words = sure(rt, words_of(alloc, words));
    let status = run_alone(alloc, words.as_slice(), &mut shelf, &mut out, &mut err);
    told_by(rt, alloc, status, &out, &err)
}

/// Runs the words alone over these files.
pub(crate) fn run_over(
    rt: &impl Abort,
    alloc: Global,
    words: &str,
    files: &[(&str, &[u8])],
) -> Told {
    run_failing(rt, alloc, words, files, (&[], &[], &[]))
}

/// Runs the words alone over one file, `f`.
pub(crate) fn run_on(rt: &impl Abort, alloc: Global, words: &str, file: &[u8]) -> Told {
    run_over(rt, alloc, words, &[("f", file)])
}

/// Runs the words over one file, `f`, with workers that pass the gate.
pub(crate) fn run_crew<R: Threads + Wait + Sync + Abort, G: Gate + Sync>(
    rt: &R,
    alloc: Global,
    words: &str,
    file: &[u8],
    gate: &G,
) -> Told {
    let mut shelf = shelf(rt, alloc, &[("f", file)], &[]);
    let (mut out, mut err) = (sink(rt, alloc, &[]), sink(rt, alloc, &[]));
    let words = sure(rt, words_of(alloc, words));
    let status = run(
        rt,
        alloc,
        words.as_slice(),
        &mut shelf,
        &mut out,
        &mut err,
        gate,
    );
    told_by(rt, alloc, status, &out, &err)
}

/// Runs the words over one file, `f`, with workers that nothing holds.
pub(crate) fn run_open<R: Threads + Wait + Sync + Abort>(
    rt: &R,
    alloc: Global,
    words: &str,
    file: &str,
) -> Told {
    run_crew(rt, alloc, words, file.as_bytes(), &OpenGate)
}

/// Whether a run of these words over the file ends so.
pub(crate) fn ends(
    rt: &impl Abort,
    alloc: Global,
    words: &str,
    file: &str,
    status: u8,
    out: &str,
    err: &str,
) -> bool {
    run_on(rt, alloc, words, file.as_bytes()).is(status, out, err)
}

/// Whether a run of these words over the file ends with this status, and its output begins so.
pub(crate) fn begins(
    rt: &impl Abort,
    alloc: Global,
    words: &str,
    file: &str,
    status: u8,
    beginning: &str,
) -> bool {
    run_on(rt, alloc, words, file.as_bytes()).begins(status, beginning)
}
