//! The texts that a run prints, as lines that are made one at a time.
ghost use Rattle.std.specs.Prelude.{◌≡◌, ◌<◌, ◌^◌, ℕ, List, length, slice_get, IfOk, Some};
ghost use Rattle.ucq_print.specs.Rows.{rows_lines};
ghost use Rattle.ucq_print.specs.Texts.{answer_lines, summary_lines};

use std::alloc::Global;
use ucq_eval::Answers;
use ucq_print::{
    Rows, answer_line, answer_line_count, cut_line, cut_line_count, summary_line,
    summary_line_count,
};
use ucq_terms::{Names, NoMemory};

/// A text of lines.
pub trait Text {
    /// Its lines, each with its line feed.
    ghost lines: { Self → List (List ℕ) };

    /// How many lines it has.
    fn len(&self) -> u64
        ensures { result ≡ length (lines self.now) };

    /// The line at a place. The only error is want of memory.
    fn line(&self, alloc: Global, place: u64) -> Result<Vec<u8>, NoMemory>
        requires { place < length (lines self.now) }
        ensures { IfOk result (λ line. slice_get (lines self.now) place ≡ Some line.items) };
}

/// The answers of a union.
#[derive(Clone, Copy)]
pub struct AnswersText<'a, 'n> {
    pub answers: &'a Answers<'n>,
}

impl Text for AnswersText<'_, '_> {
    ghost lines = { λ t. answer_lines t.answers.now.names t.answers.now.tuples };

    fn len(&self) -> u64 {
        answer_line_count(self.answers)
    }

    fn line(&self, alloc: Global, place: u64) -> Result<Vec<u8>, NoMemory> {
        answer_line(alloc, self.answers, place)
    }
}

/// The summary of a union and its answers.
#[derive(Clone, Copy)]
pub struct SummaryText {
    pub queries: u64,
    pub atoms: u64,
    pub answers: u64,
}

impl Text for SummaryText {
    ghost lines = { λ t. summary_lines t.queries t.atoms t.answers };

    fn len(&self) -> u64 {
        summary_line_count()
    }

    fn line(&self, alloc: Global, place: u64) -> Result<Vec<u8>, NoMemory> {
        summary_line(alloc, self.queries, self.atoms, self.answers, place)
    }
}

/// The text of a cut.
#[derive(Clone, Copy)]
pub struct CutText<'a, R: Rows> {
    pub names: &'a Names,
    pub rows: &'a R,
}

impl<R: Rows> Text for CutText<'_, R> {
    ghost lines = { λ t. rows_lines t.names.now (R.value t.rows.now) };

    fn len(&self) -> u64 {
        u64::from(cut_line_count(self.rows))
    }

    fn line(&self, alloc: Global, place: u64) -> Result<Vec<u8>, NoMemory> {
        let count = u64::from(cut_line_count(self.rows));
        prove!(place < count);
        cut_line(alloc, self.names, self.rows, place as u32)
    }
}
