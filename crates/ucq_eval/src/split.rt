//! The answers of a union, by several threads.
ghost use Rattle.std.specs.Prelude.{◌≡◌, ◌<◌, [], length, map, Contains, IfOk};
ghost use Rattle.ucq_eval.specs.Answers.{AreAnswers, AreTuplesOf};
ghost use Rattle.ucq_eval.specs.inner.Join.{IsGrownBy};
ghost use Rattle.ucq_eval.specs.inner.Split.{GoesThrough, IsFoundBy, IsMerged};

use crate::join::collect;
use crate::order::in_order_split;
use crate::printed::Answers;
use crate::texts::Tuple;
use indexmap::IndexSet;
use rayon::current_num_threads;
use rayon::prelude::*;
use std::alloc::Global;
use std::thread::Threads;
use ucq_facts::Facts;
use ucq_hom::bindings::Bindings;
use ucq_terms::{Names, NoMemory, Union};

/// What a thread has found, and its room for what a member binds.
#[derive(Drop)]
struct Search {
    bindings: Bindings,
    found: IndexSet<Vec<u32>>,
}

/// Nothing is found.
fn begun(alloc: Global) -> Result<Search, NoMemory>
    ensures { IfOk result (λ search. search.found.keys ≡ []) }
{
    Ok(Search {
        bindings: Bindings::new(alloc)?,
        found: IndexSet::new(alloc),
    })
}

/// The search after the member at the place.
fn after_member(
    before: Result<Search, NoMemory>,
    union: &Union,
    place: u32,
    facts: &Facts,
) -> Result<Search, NoMemory>
    requires { place < length union.now }
    ensures { IfOk result (GoesThrough union.now facts.now before place) }
{
    let mut search = before?;
    collect(
        &mut search.bindings,
        union.query(place),
        facts,
        &mut search.found,
    )?;
    Ok(search)
}

/// What the search found.
fn found_in(search: Result<Search, NoMemory>) -> Result<IndexSet<Vec<u32>>, NoMemory>
    ensures { IfOk result (IsFoundBy search) }
{
    Ok(search?.found)
}

/// Puts the tuples of the smaller set into the larger.
fn merged(
    one: Result<IndexSet<Vec<u32>>, NoMemory>,
    other: Result<IndexSet<Vec<u32>>, NoMemory>,
) -> Result<IndexSet<Vec<u32>>, NoMemory>
    ensures { IfOk result (IsMerged one other) }
{
    let (left, right) = (one?, other?);
    if left.len() < right.len() {
        put_into(right, left)
    } else {
        put_into(left, right)
    }
}

/// Puts the tuples of one set into another.
fn put_into(
    mut held: IndexSet<Vec<u32>>,
    more: IndexSet<Vec<u32>>,
) -> Result<IndexSet<Vec<u32>>, NoMemory>
    ensures { IfOk result (λ all.
        IsGrownBy
        (Contains (map (λ t. t.items) more.keys))
        (map (λ t. t.items) held.keys)
        (map (λ t. t.items) all.keys)) }
{
    held.extend(more)?;
    Ok(held)
}

/// How many of so many things each of so many threads takes, rounded up, so that the threads are enough for all.
pub(crate) fn share(count: usize, threads: usize) -> usize {
    count.div_ceil(threads.max(1))
}

/// The tuples of constants with which some member maps into the facts. Each thread searches for a part of the members.
fn found_by_threads<R: Threads + Sync>(
    rt: &R,
    alloc: Global,
    threads: usize,
    union: &Union,
    facts: &Facts,
) -> Result<IndexSet<Vec<u32>>, NoMemory>
    ensures { IfOk result (λ found.
        AreTuplesOf union.now facts.now (map (λ t. t.items) found.keys)) }
{
    (0..union.len())
        .into_par_iter()
        .with_min_len(share(union.len() as usize, threads))
        .fold(
            || -> Result<Search, NoMemory>
                ensures { IfOk result (λ search. search.found.keys ≡ []) }
            { begun(alloc) },
            |before: Result<Search, NoMemory>, place: u32| -> Result<Search, NoMemory>
                requires { place < length union.now }
                ensures { IfOk result (GoesThrough union.entry.now facts.entry.now before place) }
            { after_member(before, union, place, facts) },
        )
        .map(
            |search: Result<Search, NoMemory>| -> Result<IndexSet<Vec<u32>>, NoMemory>
                ensures { IfOk result (IsFoundBy search) }
            { found_in(search) },
        )
        .reduce(
            rt,
            || -> Result<IndexSet<Vec<u32>>, NoMemory>
                ensures { IfOk result (λ found. found.keys ≡ []) }
            { Ok(IndexSet::new(alloc)) },
            |one: Result<IndexSet<Vec<u32>>, NoMemory>, other: Result<
                IndexSet<Vec<u32>>,
                NoMemory,
            >| -> Result<IndexSet<Vec<u32>>, NoMemory>
                ensures { IfOk result (IsMerged one other) }
            { merged(one, other) },
        )
}

/// The same as `answers_with_texts`, by up to so many threads, each of which joins a part of the members and makes the texts
/// of a part of the tuples. The texts are sorted by as many threads as there are processors.
pub fn answers_with_texts_split<'n, R: Threads + Sync>(
    rt: &R,
    alloc: Global,
    threads: usize,
    union: &Union,
    names: &'n Names,
    facts: &Facts,
) -> Result<Answers<'n>, NoMemory>
    ensures names { IfOk result (λ answers. answers.names ≡ names.now) }
    ensures answers { IfOk result (λ answers.
        AreAnswers names.now union.now facts.now answers.tuples) }
{
    let found = found_by_threads(rt, alloc, threads, union, facts)?;
    let all = in_order_split(rt, alloc, threads, names, found)?;
    Ok(Answers::of(names, all))
}

/// The same without their texts, by a thread for each processor.
pub fn answers_split<R: Threads + Sync>(
    rt: &R,
    alloc: Global,
    union: &Union,
    names: &Names,
    facts: &Facts,
) -> Result<Vec<Tuple>, NoMemory>
    ensures { IfOk result (λ tuples. AreAnswers names.now union.now facts.now tuples.items) }
{
    let threads = current_num_threads(rt);
    answers_with_texts_split(rt, alloc, threads, union, names, facts)?.into_tuples(alloc)
}
