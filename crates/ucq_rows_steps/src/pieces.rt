//! The single pieces of queries with rules.
ghost use Rattle.std.specs.Prelude.{◌≡◌, ◌<◌, ◌≤◌, vec_len, IfOk};

use crate::asserts::{asked, equal, reads, ruled, sure};
use crate::shown::shown_pieces;
use std::alloc::{AllocError, Global};
use std::process::Abort;
use ucq_terms::{Atom, Query, QueryFault, Rule, Term};
use ucq_unify::single_pieces;

/// The single pieces of the query with the rule, as texts in order.
fn pieces_of(rt: &impl Abort, alloc: Global, query: &Query, rule: &Rule) -> String {
    let pieces = sure(rt, single_pieces(alloc, query, rule));
    sure(rt, shown_pieces(alloc, pieces.as_slice()))
}

/// Asserts of each row that these are the single pieces, each once.
fn assert_rows(rt: &impl Abort, alloc: Global, rows: &[(&str, &str, &str)]) {
    for (head, question, wanted) in rows {
        let found = pieces_of(
            rt,
            alloc,
            &asked(rt, alloc, question),
            &ruled(rt, alloc, head),
        );
        reads(rt, found.as_bytes(), wanted);
    }
}

#[test]
fn each_single_piece_is_given_once(rt: HostRuntime) {
    assert_rows(
        &rt,
        rt.alloc(),
        &[
            ("pXY <- sX", "?X pXY", "0-0 "),
            ("pXY <- sX", "?Y pXY", ""),
            ("pXY <- sX", "? pXY qY", ""),
            ("pXY qY <- sX", "? pXY qY", "0-0,1-1 "),
            ("pXa <- sX", "? pXb", ""),
            ("pXY <- sX", "?XZ pXY pZY", "0-0,1-0 "),
            ("pXY <- sX", "?XZ pXA pZB", "0-0 1-0 "),
            ("pXX <- sX", "? pYZ pZY", "0-0 1-0 "),
            ("pXY pXY <- sX", "? pXY", "0-0 0-1 "),
            ("pXY <- sX", "? pX", ""),
        ],
    );
}

/// That many atoms of one predicate, whose second variable is one for all or one for each.
fn pairs(alloc: Global, count: u32, shared: bool) -> Result<Vec<Atom>, AllocError>
    requires { count ≤ 128 }
    ensures { IfOk result (λ v. vec_len v ≡ count) }
{
    let mut atoms = Vec::new(alloc);
    for first in 0..count {
        let second = if shared { 1_000 } else { 1_001 + first };
        let terms = vec![in alloc; Term::Variable(first), Term::Variable(second)]?;
        atoms.push(Atom::new(b'p' as u32, terms))?;
    }
    Ok(atoms)
}

/// The query of that many atoms.
fn paired(alloc: Global, count: u32, shared: bool) -> Result<Query, QueryFault>
    requires some { 0 < count }
    requires few { count ≤ 128 }
{
    Query::new(alloc, Vec::new(alloc), pairs(alloc, count, shared)?)
}

/// How many single pieces the query of that many atoms has.
fn count_of(rt: &impl Abort, alloc: Global, count: u32, shared: bool) -> usize
    requires some { 0 < count }
    requires few { count ≤ 128 }
{
    let query = sure(rt, paired(alloc, count, shared));
    let rule = ruled(rt, alloc, "pXY <- sX");
    sure(rt, single_pieces(alloc, &query, &rule)).len()
}

/// Asserts of each number of atoms, whose second variables are one or not, how many single pieces they have.
fn assert_counts(rt: &impl Abort, alloc: Global, rows: &[(u32, bool, usize)]) {
    for (count, shared, pieces) in rows {
        assert!(rt; 0 < *count && *count <= 128);
        equal(rt, count_of(rt, alloc, *count, *shared), *pieces, "atoms");
    }
}

#[test]
fn many_atoms_of_one_predicate_take_few_steps(rt: HostRuntime) {
    assert_counts(
        &rt,
        rt.alloc(),
        &[
            (16, false, 16),
            (16, true, 1),
            (128, false, 128),
            (128, true, 1),
        ],
    );
}
