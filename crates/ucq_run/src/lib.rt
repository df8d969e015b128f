//! The top calls: from the words of the command line to the printed union and its answers.
#![tactic(auto)]

ghost use Rattle.std.specs.Prelude.{map, string_bytes};
ghost use Rattle.ucq_run.specs.Inputs.{call_of};
ghost use Rattle.ucq_outside.specs.Taken.{change_of};
ghost use Rattle.ucq_run.specs.Run.{IsFullRun};

mod compared;
mod finished;
mod form;
mod inputs;
mod judged;
pub mod laws;
mod outcome;
mod over_facts;
mod parts;
mod reading;
mod reports;
mod request;
mod sections;
mod solving;
mod texts;
mod writing;

use crate::reports::report;
use crate::request::prepare;
use crate::sections::{print_alone, print_by_crew};
use std::alloc::Global;
use std::sync::Wait;
use std::thread::Threads;
use ucq_outside::{Gate, Shelf, Sink};
use ucq_words::one_settings;

/// Reads the files that the words name, rewrites each of their queries with their rules, and prints its union, with its answers
/// over their facts where these are asked for; or makes an input and prints how many queries, atoms and answers there are.
///
/// Each query is solved with the whole budget, in order, and its section is written as soon as it is solved, before the next
/// query is begun. Where there are several, a header with the query's number and label stands before each section.
///
/// The words are `[--workers N] [--budget N] [--answers] FILE...` or `[--workers N] [--budget N] --make N`, with 1 to 64
/// workers, 1 where none are given; a budget of 1 to 65,536 rows, 4,096 where none is given; 1 to 64 files of 67,108,864
/// bytes together; and a number of 1 to 4,000 for the made input. All files are read before any of them is refused.
///
/// The answer is the status: 0 where all sections were taken whole, and each is the finished text of an exact union; 5 where all
/// were taken whole, and at least one is that of a cut; 1 for want of memory; 2 where the words stand for no settings; 3 where
/// the shelf failed; 4 where the files are too long or the reader refuses them; 6 where the output failed. Each status but 0 and
/// 5 has its line on the error stream.
///
/// The workers rewrite in threads of their own, and pass the gate between the claim of a row and the publication of what
/// they found. With more than one worker the call waits for their threads and for the lock of their store, so its return
/// isn't promised.
pub fn run<H: Shelf, K: Sink, E: Sink, G: Gate + Sync, R: Threads + Wait + Sync>(
    rt: &R,
    alloc: Global,
    words: &[String],
    shelf: &mut H,
    out: &mut K,
    err: &mut E,
    gate: &G,
) -> u8
    ensures { IsFullRun
        (call_of
        (map string_bytes words.now)
        (H.held shelf.old)
        (H.faults shelf.old)
        (H.faults shelf.new))
        (change_of (K.taken out.old) (K.taken out.new) (K.faults out.old) (K.faults out.new))
        (change_of (E.taken err.old) (E.taken err.new) (E.faults err.old) (E.faults err.new))
        result }
{
    one_settings();
    let request = match prepare(alloc, words, shelf) {
        Ok(request) => request,
        Err(outcome) => return report(alloc, err, outcome),
    };
    let outcome = print_by_crew(rt, alloc, gate, request, out);
    report(alloc, err, outcome)
}

/// The same on one thread, whatever number of workers the words give. It takes no handle, and always returns.
pub fn run_alone<H: Shelf, K: Sink, E: Sink>(
    alloc: Global,
    words: &[String],
    shelf: &mut H,
    out: &mut K,
    err: &mut E,
) -> u8
    ensures { IsFullRun
        (call_of
        (map string_bytes words.now)
        (H.held shelf.old)
        (H.faults shelf.old)
        (H.faults shelf.new))
        (change_of (K.taken out.old) (K.taken out.new) (K.faults out.old) (K.faults out.new))
        (change_of (E.taken err.old) (E.taken err.new) (E.faults err.old) (E.faults err.new))
        result }
{
    one_settings();
    let request = match prepare(alloc, words, shelf) {
        Ok(request) => request,
        Err(outcome) => return report(alloc, err, outcome),
    };
    let outcome = print_alone(alloc, request, out);
    report(alloc, err, outcome)
}
