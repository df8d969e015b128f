//! Worked rows of what goes in: files and streams, words, tokens and statements. It has tests alone.
#![tactic(auto)]

#[cfg(test)]
mod asserts;
#[cfg(test)]
mod lexer;
#[cfg(test)]
mod outside;
#[cfg(test)]
mod reader;
#[cfg(test)]
mod words;
