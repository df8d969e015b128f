//! Worked rows of what comes out: facts, answers and printed texts. It has tests alone.
#![tactic(auto)]

#[cfg(test)]
mod asserts;
#[cfg(test)]
mod conflicts;
#[cfg(test)]
mod facts;
#[cfg(test)]
mod joins;
#[cfg(test)]
mod printing;
#[cfg(test)]
mod walks;
