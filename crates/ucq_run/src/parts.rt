//! From what was solved of a query to its printed section: of a union, or of a cut, and what is compared.
ghost use Rattle.std.specs.Prelude.{◌≡◌, ◌≤◌, ◌++◌, ℕ, List, length};
ghost use Rattle.ucq_terms.specs.declared.TheConstants.{QUERIES};
ghost use Rattle.ucq_terms.specs.Syntax.{Atom as AtomValue};
ghost use Rattle.ucq_chase.specs.Names.{IsHeldProblem};
ghost use Rattle.ucq_antichain.specs.Rows.{live_queries};
ghost use Rattle.ucq_print.specs.Texts.{atom_count as atom_count_of, lines_text, summary_text};
ghost use Rattle.ucq_outside.specs.Taken.{change_of};
ghost use Rattle.ucq_run.specs.Compared.{compared_lines};
ghost use Rattle.ucq_run.specs.Parts.{compared, section};
ghost use Rattle.ucq_run.specs.Printed.{IsWrittenAs, PrintsFor, ended as ended_so};
ghost use Rattle.ucq_run.specs.inner.Reading.{IsWritten};
ghost use Rattle.ucq_run.specs.inner.Request.{AsksAbout, IsWithinLimits, question_in, section_with};
ghost use Rattle.ucq_run.specs.inner.Solved.{IsSolved, form_text, solved_text};

use crate::compared::{Compared, ComparedText, compare};
use crate::finished::{atom_count, write_answered, write_finished};
use crate::form::Form;
use crate::outcome::Outcome;
use crate::request::Shared;
use crate::solving::Solved;
use crate::texts::{CutText, SummaryText};
use crate::writing::{Unwritten, write_headed, write_text};
use std::alloc::Global;
use ucq_eval::Answers as Answered;
use ucq_eval::laws::answers_are_chase_answers;
use ucq_outside::Sink;
use ucq_print::{Rows, live_count};
use ucq_reader::Asked;
use ucq_store::laws::{cut_listing, enough_budget};
use ucq_terms::{Names, NoMemory};
use ucq_words::Mode;

/// The outcome of writing, which is this one where all was written.
pub fn written(answer: Result<(), Unwritten>, whole: Outcome) -> Outcome
    ensures { IsWrittenAs answer whole result }
{
    match answer {
        Ok(()) => whole,
        Err(Unwritten::Failed) => Outcome::WriteFault,
        Err(Unwritten::Memory) => Outcome::NoMemory,
    }
}

/// The outcome where all is printed, of which something is cut, or nothing is.
pub fn ended(cut: bool) -> Outcome
    ensures { result ≡ ended_so cut }
{
    if cut { Outcome::Cut } else { Outcome::Finished }
}

/// Writes how many queries and atoms the union of the live rows has, and how many answers, behind the header.
fn write_counts<K: Sink, R: Rows>(
    alloc: Global,
    header: &[u8],
    rows: &R,
    answers: &Answered,
    out: &mut K,
) -> Result<(), Unwritten>
    ensures written { IsWritten
        (change_of (K.taken out.old) (K.taken out.new) (K.faults out.old) (K.faults out.new))
        (header.now ++ summary_text (length (live_queries (R.value rows.now).rows))
        (atom_count_of (live_queries (R.value rows.now).rows)) (length answers.now.tuples))
        result }
    ensures later { K.faults out.old ≤ K.faults out.new }
{
    let text = SummaryText {
        queries: u64::from(live_count(rows)),
        atoms: atom_count(rows),
        answers: answers.len() as u64,
    };
    write_headed(alloc, out, header, &text)
}

/// Writes the union of the live rows in this form, with its answers where the form has them, behind the header.
fn write_form<K: Sink, R: Rows>(
    alloc: Global,
    header: &[u8],
    names: &Names,
    rows: &R,
    answers: &Answered,
    form: Form,
    out: &mut K,
) -> Result<(), Unwritten>
    requires { answers.now.names ≡ names.now }
    ensures written { IsWritten
        (change_of (K.taken out.old) (K.taken out.new) (K.faults out.old) (K.faults out.new))
        (header.now ++ form_text form names.now (live_queries (R.value rows.now).rows)
        answers.now.tuples) result }
    ensures later { K.faults out.old ≤ K.faults out.new }
{
    match form {
        Form::Queries => write_finished(alloc, out, header, names, rows),
        Form::Answers => write_answered(alloc, out, header, names, rows, answers),
        Form::Counts => write_counts(alloc, header, rows, answers, out),
    }
}

/// Writes what was solved of a problem, behind the header.
fn write_solved<K: Sink>(
    alloc: Global,
    header: &[u8],
    shared: &Shared,
    solved: &Solved<'_>,
    out: &mut K,
) -> Result<(), Unwritten>
    requires { solved.now.answers.names ≡ shared.now.names }
    ensures written { IsWritten
        (change_of (K.taken out.old) (K.taken out.new) (K.faults out.old) (K.faults out.new))
        (header.now ++ solved_text shared.now solved.now) result }
    ensures later { K.faults out.old ≤ K.faults out.new }
{
    let (names, rows) = (&shared.names, &solved.store);
    match rows.cut() {
        Some(_) => write_headed(alloc, out, header, &CutText { names, rows }),
        None => write_form(
            alloc,
            header,
            names,
            rows,
            &solved.answers,
            shared.form,
            out,
        ),
    }
}

/// Writes what was solved of a problem, behind the header, and then what is compared with the query of the number.
fn write_compared<K: Sink>(
    alloc: Global,
    header: &[u8],
    shared: &Shared,
    solved: &Solved<'_>,
    compared: &Compared,
    number: u32,
    out: &mut K,
) -> Result<(), Unwritten>
    requires { solved.now.answers.names ≡ shared.now.names }
    ensures written { IsWritten
        (change_of (K.taken out.old) (K.taken out.new) (K.faults out.old) (K.faults out.new))
        (header.now ++ (solved_text shared.now solved.now ++ lines_text
        (compared_lines shared.now.names number compared.now.told.items compared.now.minimal)))
        result }
    ensures later { K.faults out.old ≤ K.faults out.new }
{
    write_solved(alloc, header, shared, solved, out)?;
    let names = &shared.names;
    let text = ComparedText {
        names,
        number,
        compared,
    };
    write_text(alloc, out, &text)
}

/// Prints what was solved of a problem behind the header.
fn print_plain<K: Sink>(
    alloc: Global,
    header: &[u8],
    shared: &Shared,
    solved: &Solved<'_>,
    out: &mut K,
) -> Outcome
    requires within { IsWithinLimits shared.now }
    requires held { IsHeldProblem (length shared.now.names) solved.now.store.problem }
    requires solved { IsSolved shared.now solved.now.store.problem solved.now }
    ensures prints { (facts : List AtomValue) →
        AsksAbout shared.now facts →
        PrintsFor (section header.now (question_in shared.now solved.now.store.problem facts))
        (change_of (K.taken out.old) (K.taken out.new) (K.faults out.old) (K.faults out.new))
        result }
    ensures later { K.faults out.old ≤ K.faults out.new }
{
    answers_are_chase_answers();
    cut_listing();
    enough_budget();
    let is_cut = solved.store.cut().is_some();
    // A length tells that the answers are few enough to be counted.
    let _ = solved.answers.len();
    let wrote = write_solved(alloc, header, shared, solved, out);
    written(wrote, ended(is_cut))
}

/// Prints what was solved of a problem behind the header, and then what its store tells of the other queries.
fn print_compared<K: Sink>(
    alloc: Global,
    header: &[u8],
    shared: &Shared,
    solved: &Solved<'_>,
    queries: &[Asked],
    number: u32,
    out: &mut K,
) -> Outcome
    requires within { IsWithinLimits shared.now }
    requires few { length queries.now ≤ QUERIES }
    requires held { IsHeldProblem (length shared.now.names) solved.now.store.problem }
    requires solved { IsSolved shared.now solved.now.store.problem solved.now }
    ensures prints { (facts : List AtomValue) →
        AsksAbout shared.now facts →
        PrintsFor
        (compared header.now (question_in shared.now solved.now.store.problem facts) number
        queries.now)
        (change_of (K.taken out.old) (K.taken out.new) (K.faults out.old) (K.faults out.new))
        result }
    ensures later { K.faults out.old ≤ K.faults out.new }
{
    answers_are_chase_answers();
    cut_listing();
    enough_budget();
    let is_cut = solved.store.cut().is_some();
    // A length tells that the answers are few enough to be counted.
    let _ = solved.answers.len();
    let compared = match compare(alloc, &solved.store, queries, number) {
        Ok(compared) => compared,
        Err(NoMemory) => return Outcome::NoMemory,
    };
    let wrote = write_compared(alloc, header, shared, solved, &compared, number, out);
    written(wrote, ended(is_cut))
}

/// Prints what was solved of the problem of the query of the number, behind the header, as the mode asks.
pub fn print_section<K: Sink>(
    alloc: Global,
    header: &[u8],
    shared: &Shared,
    solved: &Solved<'_>,
    queries: &[Asked],
    number: u32,
    out: &mut K,
) -> Outcome
    requires within { IsWithinLimits shared.now }
    requires few { length queries.now ≤ QUERIES }
    requires held { IsHeldProblem (length shared.now.names) solved.now.store.problem }
    requires solved { IsSolved shared.now solved.now.store.problem solved.now }
    ensures prints { (facts : List AtomValue) →
        AsksAbout shared.now facts →
        PrintsFor
        (section_with shared.now.mode header.now
        (question_in shared.now solved.now.store.problem facts) number queries.now)
        (change_of (K.taken out.old) (K.taken out.new) (K.faults out.old) (K.faults out.new))
        result }
    ensures later { K.faults out.old ≤ K.faults out.new }
{
    match shared.mode {
        Mode::Plain => print_plain(alloc, header, shared, solved, out),
        Mode::Within => print_compared(alloc, header, shared, solved, queries, number, out),
    }
}
