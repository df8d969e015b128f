//! Worked rows: what queries, rules and names hold, and what homomorphisms, cores, single pieces, aggregates and steps are.
//! It has tests alone.
#![tactic(auto)]

#[cfg(test)]
mod aggregates;
#[cfg(test)]
mod asserts;
#[cfg(test)]
mod classes;
#[cfg(test)]
mod cores;
#[cfg(test)]
mod coverings;
#[cfg(test)]
mod families;
#[cfg(test)]
mod generated;
#[cfg(test)]
mod images;
#[cfg(test)]
mod isomorphisms;
#[cfg(test)]
mod names;
#[cfg(test)]
mod pieces;
#[cfg(test)]
mod plain;
#[cfg(test)]
mod queries;
#[cfg(test)]
mod rules;
#[cfg(test)]
mod shown;
#[cfg(test)]
mod steps;
