//! Worked rows of what stands on stores that are finished or cut. It has tests alone.
#![tactic(auto)]

#[cfg(test)]
mod asserts;
#[cfg(test)]
mod containments;
#[cfg(test)]
mod needless;
