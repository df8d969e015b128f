//! The texts that a run prints, made a line at a time: of queries, of a finished union, of its answers, of a store that was cut, the headers
//! of sections, what compares queries and rules, and of the reader's refusals.
//!
//! The definitions of the texts stand in `specs/`.
#![tactic(auto)]

mod answers;
mod compared;
mod cuts;
mod finished;
pub mod laws;
mod queries;
mod refusals;
mod rows;
mod sections;

pub use answers::{answer_line, answer_line_count, summary_line, summary_line_count};
pub use compared::{Judged, Told, minimal_line, rule_line, within_line};
pub use cuts::{cut_line, cut_line_count, row_line};
pub use finished::{live_count, query_count_line};
pub use queries::query_text;
pub use refusals::refusal_text;
pub use rows::Rows;
pub use sections::section_line;
pub use ucq_eval::tuple_text;
