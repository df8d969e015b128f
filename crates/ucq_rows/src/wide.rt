//! A rule whose body has 32 atoms: the widest rewriting that a store holds has 128 atoms, and a wider one cuts.
use crate::asserts::{equal, holds, sure};
use crate::harness::{Told, run_on};
use std::alloc::{AllocError, Global};
use std::process::Abort;

/// The rule, and the query of these atoms.
fn file_of(alloc: Global, query: &str) -> Result<String, AllocError> {
    let mut file = String::from_str(alloc, "p(X) :- q1(X,Y1)")?;
    for i in 2..33u32 {
        write!(file, ", q{i}(X,Y{i})")?;
    }
    write!(file, ".\n? :- {query}.\n")?;
    Ok(file)
}

/// What a run over the rule and the query of these atoms ends with.
fn told_of(rt: &impl Abort, alloc: Global, query: &str) -> Told {
    let file = sure(rt, file_of(alloc, query));
    run_on(rt, alloc, "f", file.as_bytes())
}

/// The constants of the query.
const CONSTANTS: [&str; 4] = ["a", "b", "c", "d"];

/// The atoms of the query for whose constants the number has a one rewritten, a line each in byte order: the atoms of the
/// rule's body are given without the variable, which stands in no other atom.
fn atoms_of(alloc: Global, number: u32) -> Result<Vec<String>, AllocError> {
    let mut atoms = Vec::new(alloc);
    for (place, constant) in CONSTANTS.iter().enumerate() {
        if number >> place & 1 == 0 {
            atoms.push(format!(in alloc; "p({constant})\n")?)?;
        } else {
            for i in 1..33u32 {
                atoms.push(format!(in alloc; "q{i}({constant}\n")?)?;
            }
        }
    }
    atoms.sort()?;
    Ok(atoms)
}

/// The atom without its last term, if that is the variable of the number.
fn front_of<'a>(
    alloc: Global,
    atom: &'a str,
    variable: u32,
) -> Result<Option<&'a str>, AllocError> {
    let ending = format!(in alloc; ",X{variable})")?;
    Ok(atom.strip_suffix(ending.as_str()))
}

/// The same of a printed query, if each of its variables stands in one atom. Where one doesn't, its atoms stay as they are.
fn printed_atoms(alloc: Global, line: &str) -> Result<Vec<String>, AllocError> {
    let mut atoms = Vec::new(alloc);
    let mut variable = 0u32;
    let query = line.trim_start_matches("? :- ").trim_end_matches('.');
    for atom in query.split(", ") {
        let front = front_of(alloc, atom, variable)?;
        variable = variable.saturating_add(u32::from(front.is_some()));
        let text = front.unwrap_or(atom);
        atoms.push(format!(in alloc; "{text}\n")?)?;
    }
    atoms.sort()?;
    Ok(atoms)
}

/// One text of all.
fn joined(alloc: Global, parts: &[String]) -> Result<String, AllocError> {
    let mut text = String::new(alloc);
    for part in parts {
        text.push_str(part.as_str())?;
    }
    Ok(text)
}

/// The queries for all sets of rewritten atoms, in byte order.
fn expected(alloc: Global) -> Result<Vec<String>, AllocError> {
    let mut queries = Vec::new(alloc);
    for number in 0..16u32 {
        let atoms = atoms_of(alloc, number)?;
        queries.push(joined(alloc, atoms.as_slice())?)?;
    }
    queries.sort()?;
    Ok(queries)
}

/// The printed queries, in byte order.
fn printed(alloc: Global, text: &str) -> Result<Vec<String>, AllocError> {
    let mut queries = Vec::new(alloc);
    for line in text.split('\n') {
        if line.starts_with('?') {
            let atoms = printed_atoms(alloc, line)?;
            queries.push(joined(alloc, atoms.as_slice())?)?;
        }
    }
    queries.sort()?;
    Ok(queries)
}

/// The queries that a run over four atoms prints, in byte order.
fn printed_of_four(rt: &impl Abort, alloc: Global) -> Vec<String> {
    let told = told_of(rt, alloc, "p(a), p(b), p(c), p(d)");
    holds(rt, told.begins(0, "% finished\n% queries 16\n"));
    match str::from_utf8(told.out.as_slice()) {
        Ok(text) => sure(rt, printed(alloc, text)),
        Err(_) => panic!(rt; "no text"),
    }
}

#[test]
fn four_atoms_have_a_query_for_each_set_of_rewritten_ones(rt: HostRuntime) {
    let found = printed_of_four(&rt, rt.alloc());
    let wanted = sure(&rt, expected(rt.alloc()));
    holds(&rt, found == wanted);
}

/// How many atoms the widest of the queries has.
fn width(queries: &[String]) -> usize {
    let mut most = 0;
    for query in queries {
        most = most.max(query.as_str().split_whitespace().count());
    }
    most
}

#[test]
fn the_widest_has_128_atoms(rt: HostRuntime) {
    let queries = printed_of_four(&rt, rt.alloc());
    equal(&rt, width(queries.as_slice()), 128, "atoms");
}

#[test]
fn a_rewriting_of_more_than_128_atoms_cuts(rt: HostRuntime) {
    let told = told_of(&rt, rt.alloc(), "p(a), p(b), p(c), p(d), p(e)");
    let cut = "% cut wide row 0 rule 0\n? :- p(a), p(b), p(c), p(d), p(e).\n";
    holds(&rt, told.is(5, cut, ""));
}
