//! Families of larger graphs, which are placed and shrunk in few steps.
ghost use Rattle.std.specs.Prelude.{◌≡◌, ◌<◌, ◌≤◌, vec_len, IfOk};
ghost use Rattle.ucq_terms.specs.Query.{IsStored};

use crate::asserts::{equal, room};
use std::alloc::{AllocError, Global};
use std::process::Abort;
use ucq_fold::{isomorphic, shrink};
use ucq_terms::{Atom, Query, QueryFault, Term};

#[derive(Clone, Copy)]
enum Family {
    Star,
    PathBetweenConstants,
    AlternatingCycle,
    Copies,
    Grid,
}

/// The ends of an edge of a family of 32 edges, or of 24 for the grid of 4 by 4.
fn ends(family: Family, edge: u32) -> (Term, Term)
    requires { edge < 32 }
{
    let (from, to) = match family {
        Family::Star => (0, edge + 1),
        Family::PathBetweenConstants if edge == 0 => return (Term::Constant(0), Term::Variable(0)),
        Family::PathBetweenConstants if edge == 31 => return (
            Term::Variable(30),
            Term::Constant(1),
        ),
        Family::PathBetweenConstants => (edge - 1, edge),
        Family::AlternatingCycle if edge % 2 == 0 => (edge, edge + 1),
        Family::AlternatingCycle => ((edge + 1) % 32, edge),
        Family::Copies => (2 * edge, 2 * edge + 1),
        Family::Grid if edge < 12 => (edge / 3 * 4 + edge % 3, edge / 3 * 4 + edge % 3 + 1),
        Family::Grid => (edge - 12, edge - 8),
    };
    (Term::Variable(from), Term::Variable(to))
}

/// The edges as atoms, in order or the last first.
fn edges(
    alloc: Global,
    family: Family,
    count: u32,
    last_first: bool,
) -> Result<Vec<Atom>, AllocError>
    requires { count ≤ 32 }
    ensures { IfOk result (λ v. vec_len v ≡ count) }
{
    let mut atoms = Vec::new(alloc);
    for place in 0..count {
        let edge = if last_first { count - 1 - place } else { place };
        let (from, to) = ends(family, edge);
        atoms.push(Atom::new(0, vec![in alloc; from, to]?))?;
    }
    Ok(atoms)
}

fn graph(alloc: Global, family: Family, count: u32, last_first: bool) -> Result<Query, QueryFault>
    requires some { 0 < count }
    requires few { count ≤ 32 }
    ensures { IfOk result IsStored }
{
    let atoms = edges(alloc, family, count, last_first)?;
    Query::new(alloc, Vec::new(alloc), atoms)
}

fn made(rt: &impl Abort, made: Result<Query, QueryFault>) -> Query
    requires { IfOk made IsStored }
    ensures { IsStored result }
{
    match made {
        Ok(query) => query,
        Err(fault) => panic!(rt; "{fault:?}"),
    }
}

/// Whether the graph is isomorphic to itself with its edges the other way round, and how many edges its core has.
fn measured(rt: &impl Abort, alloc: Global, family: Family, count: u32) -> (bool, usize)
    requires some { 0 < count }
    requires few { count ≤ 32 }
{
    let mut space = room(rt, alloc);
    let mut query = made(rt, graph(alloc, family, count, false));
    let other = made(rt, graph(alloc, family, count, true));
    let same = isomorphic(&mut space, &query, &other);
    shrink(&mut space, &mut query);
    (same, query.atoms().len())
}

/// Asserts of each family of 32 edges how many edges its core has.
fn assert_rows(rt: &impl Abort, alloc: Global, rows: &[(Family, usize)]) {
    for (family, core) in rows {
        equal(
            rt,
            measured(rt, alloc, *family, 32),
            (true, *core),
            "family",
        );
    }
}

#[test]
fn families_are_placed_and_shrunk_to_their_cores(rt: HostRuntime) {
    assert_rows(
        &rt,
        rt.alloc(),
        &[
            (Family::Star, 1),
            (Family::PathBetweenConstants, 32),
            (Family::AlternatingCycle, 1),
            (Family::Copies, 1),
        ],
    );
}

#[test]
fn a_grid_is_placed_and_shrunk_to_a_path(rt: HostRuntime) {
    let grid = measured(&rt, rt.alloc(), Family::Grid, 24);
    equal(&rt, grid, (true, 6), "grid");
}
