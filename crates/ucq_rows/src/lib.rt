//! Worked rows: what the whole program answers to small files. It has tests alone.
#![tactic(auto)]

#[cfg(test)]
mod answers;
#[cfg(test)]
mod asserts;
#[cfg(test)]
mod budgets;
#[cfg(test)]
mod comparing;
#[cfg(test)]
mod failing;
#[cfg(test)]
mod faults;
#[cfg(test)]
mod gates;
#[cfg(test)]
mod harness;
#[cfg(test)]
mod printed;
#[cfg(test)]
mod rewritings;
#[cfg(test)]
mod sections;
#[cfg(test)]
mod university;
#[cfg(test)]
mod wide;
#[cfg(test)]
mod workers;
