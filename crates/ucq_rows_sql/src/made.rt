//! Unions and names from short texts.
use crate::asserts::{holds, sure};
use std::alloc::Global;
use std::process::Abort;
use ucq_terms::{Names, Query, Union};
use ucq_worked::{WorkedFault, query};

/// The queries of a text that has bars between them.
fn queries_of(alloc: Global, text: &str) -> Result<Vec<Query>, WorkedFault> {
    let mut queries = Vec::new(alloc);
    for part in text.split('|') {
        queries.push(query(alloc, part)?)?;
    }
    Ok(queries)
}

/// The union of the queries of a text that has bars between them.
pub(crate) fn union_of(rt: &impl Abort, alloc: Global, text: &str) -> Union {
    let members = sure(rt, queries_of(alloc, text));
    holds(rt, members.len() < 1_000);
    Union::new(members)
}

/// Takes a name up.
fn name(rt: &impl Abort, names: &mut Names, text: &[u8]) {
    holds(rt, names.len() < 1_000);
    sure(rt, names.number(text));
}

/// These names, the first of which has the number 0.
pub(crate) fn names_of(rt: &impl Abort, alloc: Global, texts: &[&[u8]]) -> Names {
    let mut names = sure(rt, Names::new(alloc));
    for text in texts {
        name(rt, &mut names, text);
    }
    names
}

/// A name for each constant of a worked text, which is its letter.
pub(crate) fn letters(rt: &impl Abort, alloc: Global) -> Names {
    let mut names = sure(rt, Names::new(alloc));
    for letter in 0..128u8 {
        name(rt, &mut names, &[letter]);
    }
    names
}
