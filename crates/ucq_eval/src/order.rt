//! Tuples in the order in which they are printed.
ghost use Rattle.std.specs.Prelude.{◌≡◌, ◌≢◌, AllPairs, map, IfOk};
ghost use Rattle.ucq_eval.specs.Order.{AreInOrder, ArePrinted, HaveTexts, IsPrinted, tuples_beside};

use crate::split::share;
use crate::texts::numbers_text;
use indexmap::IndexSet;
use rayon::prelude::*;
use std::alloc::Global;
use std::thread::Threads;
use ucq_terms::{Names, NoMemory};

/// A tuple with its text, which stands first and so decides the order.
#[derive(PartialEq, Eq, PartialOrd, Ord, Drop)]
pub(crate) struct Printed {
    pub(crate) text: Vec<u8>,
    pub(crate) names: Vec<u32>,
}

/// No two of the tuples are equal.
fn differ(found: &IndexSet<Vec<u32>>)
    ensures { AllPairs (λ a b. a ≢ b) (map (λ t. t.items) found.now.keys) }
{
    let _ = found.len();
}

/// The tuple with its text.
fn with_text(alloc: Global, names: &Names, numbers: Vec<u32>) -> Result<Printed, NoMemory>
    ensures { IfOk result (IsPrinted names.now numbers) }
{
    let text = numbers_text(alloc, names, numbers.as_slice())?;
    Ok(Printed {
        text,
        names: numbers,
    })
}

/// The tuples with their texts.
fn with_texts(
    alloc: Global,
    names: &Names,
    found: IndexSet<Vec<u32>>,
) -> Result<Vec<Printed>, NoMemory>
    ensures { IfOk result (λ all. ArePrinted names.now (map (λ t. t.items) found.keys) all.items) }
{
    let mut all = Vec::new(alloc);
    for numbers in found {
        all.push(with_text(alloc, names, numbers)?)?;
    }
    Ok(all)
}

/// The same by up to so many threads.
fn with_texts_split<R: Threads + Sync>(
    rt: &R,
    alloc: Global,
    threads: usize,
    names: &Names,
    found: IndexSet<Vec<u32>>,
) -> Result<Vec<Printed>, NoMemory>
    ensures { IfOk result (λ all. ArePrinted names.now (map (λ t. t.items) found.keys) all.items) }
{
    let tuples: Vec<Vec<u32>> = found.into_iter().collect(alloc)?;
    let least = share(tuples.len(), threads);
    tuples
        .into_par_iter()
        .with_min_len(least)
        .map(
            |numbers: Vec<u32>| -> Result<Printed, NoMemory>
                ensures { IfOk result (IsPrinted names.entry.now numbers) }
            { with_text(alloc, names, numbers) },
        )
        .collect::<Result<Vec<Printed>, NoMemory>>(rt, alloc)?
}

/// The tuples with their texts, in byte order of these. Each text is made once. The only error is want of memory.
pub(crate) fn in_order(
    alloc: Global,
    names: &Names,
    found: IndexSet<Vec<u32>>,
) -> Result<Vec<Printed>, NoMemory>
    ensures order { IfOk result (λ all.
        AreInOrder names.now (map (λ t. t.items) found.keys) (tuples_beside all.items)) }
    ensures texts { IfOk result (λ all. HaveTexts names.now all.items) }
{
    differ(&found);
    let mut all = with_texts(alloc, names, found)?;
    all.sort_unstable();
    Ok(all)
}

/// The same by up to so many threads, and sorted by as many as there are processors.
pub(crate) fn in_order_split<R: Threads + Sync>(
    rt: &R,
    alloc: Global,
    threads: usize,
    names: &Names,
    found: IndexSet<Vec<u32>>,
) -> Result<Vec<Printed>, NoMemory>
    ensures order { IfOk result (λ all.
        AreInOrder names.now (map (λ t. t.items) found.keys) (tuples_beside all.items)) }
    ensures texts { IfOk result (λ all. HaveTexts names.now all.items) }
{
    differ(&found);
    let mut all = with_texts_split(rt, alloc, threads, names, found)?;
    par_sort_unstable(rt, all.as_mut_slice());
    Ok(all)
}
