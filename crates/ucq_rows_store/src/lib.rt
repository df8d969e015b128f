//! Worked rows: what an antichain, a log, a board and a store answer, and what a rewriting on one thread ends with. It has
//! tests alone.
#![tactic(auto)]

#[cfg(test)]
mod antichains;
#[cfg(test)]
mod asserts;
#[cfg(test)]
mod boards;
#[cfg(test)]
mod claims;
#[cfg(test)]
mod evidence;
#[cfg(test)]
mod levels;
#[cfg(test)]
mod logs;
#[cfg(test)]
mod looks;
#[cfg(test)]
mod publications;
#[cfg(test)]
mod reports;
#[cfg(test)]
mod rewritings;
#[cfg(test)]
mod stores;
