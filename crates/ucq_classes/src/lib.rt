//! The terms of a query and of copies of rules as numbers, and their classes, which links of terms make.
//!
//! Copies may be of different rules, each with variables of its own.
#![tactic(auto)]

mod bounds;
mod classes;
mod constants;
mod nodes;
mod numbering;

pub use bounds::variable_bound;
pub use classes::Classes;
pub use nodes::Node;
pub use numbering::Numbering;
