//! Worked rows of SQL: statements, tables, facts and comments. It has tests alone.
#![tactic(auto)]

#[cfg(test)]
mod asserts;
#[cfg(test)]
mod comments;
#[cfg(test)]
mod made;
#[cfg(test)]
mod results;
#[cfg(test)]
mod statements;
#[cfg(test)]
mod tables;
