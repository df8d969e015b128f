//! A union of conjunctive queries as one statement of SQL, which SQLite, PostgreSQL, DuckDB and Trino take alike, over tables
//! that hold the facts of one predicate each.
//!
//! A statement is of select, distinct, a list of tables, equalities and union alone. Its meaning over tables is that of the
//! algebra of S. Abiteboul, R. Hull and V. Vianu, *Foundations of Databases*, 1995, in `specs/Algebra`; `laws` says that it
//! is what the union answers over the facts, and that its text has no other reading.
//!
//! Databases have limits of their own, which no clause speaks of. SQLite, DuckDB and Trino don't tell names by the case of
//! letters (`have_one_caseless_name`), and PostgreSQL cuts them behind 63 bytes (`name_len`). As it is built by default, SQLite
//! joins at most 64 tables, and at most 500 selects by union.
#![tactic(auto)]

mod algebra;
mod columns;
mod comments;
pub mod laws;
mod quotes;
mod selects;
mod tables;

pub use algebra::{Column, Condition, Output, Table};
pub use comments::{query_comment, rows_cut_comment, wide_cut_comment};
pub use selects::{END, member_text, select_text, statement_text};
pub use tables::{
    facts_line, first_unknown, have_one_caseless_name, is_of_constants, name_len, note_tables,
    run_of, table_line, table_name, table_of,
};
