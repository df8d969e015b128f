//! Cores of queries, and queries that are equal but for the names of their variables.
#![tactic(auto)]

mod agreement;
mod cores;
mod isomorphism;
mod normal;
mod placing;
mod shrinking;

pub use cores::is_core;
pub use isomorphism::isomorphic;
pub use normal::normal_form;
pub use shrinking::{may_fold, shrink};
