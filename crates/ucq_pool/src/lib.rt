//! The breadth-first rewriting of a problem over a lawful store.
//!
//! `alone` works on one thread: it takes no handle, and always returns. `rounds` works with several threads, one round for
//! each level: all open rows are claimed, workers draw the claims from a board without a lock, rewrite the rows' queries
//! outside the store's lock, and publish what they found under it. A log, which they read without a lock, tells them which
//! cores are covered before they publish.
#![tactic(auto)]

mod crew;
mod indexed;
mod own;
mod rewritings;
mod solo;
mod task;
mod worker;

pub use crew::{Note, rounds, rounds_noted};
pub use solo::alone;
