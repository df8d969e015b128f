//! What the space tells after a search.
use crate::asserts::{asked, equal, room};
use std::alloc::Global;
use std::process::Abort;
use ucq_hom::{HomSpace, covers, find_without};
use ucq_terms::{Query, Term};

/// What the space tells of the variable: another variable's number, or none.
fn image(space: &HomSpace, variable: u32) -> Option<u32> {
    match space.image_of(variable) {
        Some(Term::Variable(image)) => Some(image),
        _ => None,
    }
}

/// What a search found, and the images of the first three variables and of the last one that there is.
#[derive(Clone, Copy, Debug, PartialEq, Eq)]
struct Look {
    found: bool,
    first: Option<u32>,
    second: Option<u32>,
    third: Option<u32>,
    last: Option<u32>,
}

fn told(space: &HomSpace, found: bool) -> Look {
    Look {
        found,
        first: image(space, 0),
        second: image(space, 1),
        third: image(space, 2),
        last: image(space, u32::MAX),
    }
}

/// What is told of these images.
fn wanted(found: bool, first: Option<u32>, second: Option<u32>, third: Option<u32>) -> Look {
    Look {
        found,
        first,
        second,
        third,
        last: None,
    }
}

fn told_by(rt: &impl Abort, alloc: Global, space: &mut HomSpace, from: &str, to: &str) -> Look {
    let found = covers(space, &asked(rt, alloc, from), &asked(rt, alloc, to));
    told(space, found)
}

#[test]
fn images_are_those_of_the_last_search(rt: HostRuntime) {
    let mut space = room(&rt, rt.alloc());
    let first = told_by(&rt, rt.alloc(), &mut space, "?A pAB pBa", "?A pAB pBa pAC");
    equal(&rt, first, wanted(true, Some(0), Some(1), None), "found");
    let second = told_by(&rt, rt.alloc(), &mut space, "?A pAB pBa pAC", "?A pAB");
    equal(&rt, second, wanted(false, None, None, None), "none");
}

/// What is told of a search of the query in itself without the atom at that place, where it has one.
fn told_without(space: &mut HomSpace, query: &Query, place: u32) -> Look {
    let found = (place as usize) < query.atoms().len() && find_without(space, query, place);
    told(space, found)
}

fn assert_without(rt: &impl Abort, space: &mut HomSpace, query: &Query, rows: &[(u32, Look)]) {
    for (place, wanted) in rows {
        equal(rt, told_without(space, query, *place), *wanted, "without");
    }
}

#[test]
fn images_are_told_of_a_query_without_an_atom(rt: HostRuntime) {
    let mut space = room(&rt, rt.alloc());
    let query = asked(&rt, rt.alloc(), "?A pAB pBa pAC");
    let found = wanted(true, Some(0), Some(1), Some(1));
    let none = wanted(false, None, None, None);
    assert_without(&rt, &mut space, &query, &[(2, found), (1, none)]);
}

#[test]
fn a_cleared_space_tells_no_image(rt: HostRuntime) {
    let mut space = room(&rt, rt.alloc());
    let query = asked(&rt, rt.alloc(), "?A pAB pBa pAC");
    let found = told_without(&mut space, &query, 2);
    space.clear();
    let cleared = told(&space, found.found);
    equal(&rt, cleared, wanted(true, None, None, None), "cleared");
}
