//! Printed unions, read back: what several workers print is what one prints, up to the names of variables and the order of
//! atoms and lines.
ghost use Rattle.std.specs.Prelude.{◌≤◌, ◌^◌, length};

use crate::asserts::{equal, sure};
use crate::harness::run_open;
use crate::university::{UNION, UNIVERSITY};
use crate::workers::are_equal;
use std::alloc::Global;
use std::process::Abort;
use std::sync::Wait;
use std::thread::Threads;
use ucq_hom::HomSpace;
use ucq_reader::{Input, ReadFault, read_files};
use ucq_terms::{Query, Union};

/// What the two files stand for.
fn read_two(alloc: Global, first: &[u8], second: &[u8]) -> Result<Input, ReadFault>
    requires first { length first.now ≤ 2 ^ 24 }
    requires second { length second.now ≤ 2 ^ 24 }
{
    let mut files = Vec::new(alloc);
    files.push(first.to_vec(alloc)?)?;
    files.push(second.to_vec(alloc)?)?;
    read_files(alloc, files.as_slice())
}

/// The query of a printed line. The university's facts and rules before it give its names their numbers.
fn query_of(rt: &impl Abort, alloc: Global, line: &str) -> Query {
    let Some((before, _query)) = UNIVERSITY.split_once("@queries") else {
        panic!(rt; "no queries")
    };
    assert!(rt; before.len() <= 1 << 20 && line.len() <= 1 << 20);
    let read = sure(rt, read_two(alloc, before.as_bytes(), line.as_bytes()));
    match read.queries.into_iter().next() {
        Some(asked) => asked.query,
        None => panic!(rt; "no query"),
    }
}

/// The printed queries.
fn queries_of(rt: &impl Abort, alloc: Global, text: &str) -> Vec<Query> {
    let mut queries = Vec::new(alloc);
    for line in text.split('\n') {
        if line.starts_with('?') {
            sure(rt, queries.push(query_of(rt, alloc, line)));
        }
    }
    queries
}

/// The printed union.
fn union_of(rt: &impl Abort, alloc: Global, text: &str) -> Union {
    let queries = queries_of(rt, alloc, text);
    assert!(rt; queries.len() < 1_000);
    Union::new(queries)
}

/// Words of several workers, and what follows the queries.
const OF_SEVERAL: [(&str, &str); 4] = [
    ("--workers 8 f", ""),
    (
        "--workers 8 f --answers",
        "% answers 3\n% (ann)\n% (bob)\n% (cat)\n",
    ),
    ("--workers 2 f", ""),
    (
        "--workers 2 f --answers",
        "% answers 3\n% (ann)\n% (bob)\n% (cat)\n",
    ),
];

/// Whether the text is that of the ten queries of the union, in any order, and then of the ending.
fn is_printed(rt: &impl Abort, alloc: Global, text: &str, single: &Union, ending: &str) -> bool {
    let union = union_of(rt, alloc, text);
    let last = sure(rt, format!(in alloc; ".\n{ending}"));
    union.len() == 10
        && are_equal(&mut sure(rt, HomSpace::new(alloc)), &union, single)
        && text.starts_with("% finished\n% queries 10\n?")
        && text.ends_with(last.as_str())
}

/// Asserts of the words that what several workers print is that union, and then the ending.
fn assert_printed<R: Threads + Wait + Sync + Abort>(
    rt: &R,
    alloc: Global,
    single: &Union,
    rows: &[(&str, &str)],
) {
    for (words, ending) in rows {
        let told = run_open(rt, alloc, words, UNIVERSITY);
        let found = match str::from_utf8(told.out.as_slice()) {
            Ok(text) => is_printed(rt, alloc, text, single, ending),
            Err(_) => false,
        };
        equal(rt, (told.status, found), (0, true), words);
    }
}

#[test]
fn several_workers_print_the_union_of_one(rt: HostRuntime) {
    let single = union_of(&rt, rt.alloc(), UNION);
    assert_printed(&rt, rt.alloc(), &single, &OF_SEVERAL);
}
