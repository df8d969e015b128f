//! The answers of a union of queries over facts, and the texts of their tuples.
//!
//! The definitions stand in `specs/`.
#![tactic(auto)]

mod evaluation;
mod join;
pub mod laws;
mod order;
mod printed;
mod split;
mod texts;

pub use evaluation::{answers, answers_with_texts};
pub use printed::Answers;
pub use split::{answers_split, answers_with_texts_split};
pub use texts::{Tuple, tuple_text};
