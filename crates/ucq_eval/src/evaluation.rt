//! The answers of a union.
ghost use Rattle.std.specs.Prelude.{◌≡◌, map, IfOk};
ghost use Rattle.ucq_eval.specs.Answers.{AreAnswers, AreTuplesOf};

use crate::join::collect;
use crate::order::in_order;
use crate::printed::Answers;
use crate::texts::Tuple;
use indexmap::IndexSet;
use std::alloc::Global;
use ucq_facts::Facts;
use ucq_hom::bindings::Bindings;
use ucq_terms::{Names, NoMemory, Union};

/// The tuples of constants with which some member maps into the facts.
fn found_of(alloc: Global, union: &Union, facts: &Facts) -> Result<IndexSet<Vec<u32>>, NoMemory>
    ensures { IfOk result (λ found.
        AreTuplesOf union.now facts.now (map (λ t. t.items) found.keys)) }
{
    let mut bindings = Bindings::new(alloc)?;
    let mut found = IndexSet::new(alloc);
    for place in 0..union.len() {
        collect(&mut bindings, union.query(place), facts, &mut found)?;
    }
    Ok(found)
}

/// The answers of a union over facts, each with its text: every tuple of constants with which some member maps into the
/// facts, each once, in byte order of their texts. Unknown values of the facts stand in no tuple.
///
/// Each member is joined atom by atom, next an atom with one fact at most by the index, or else the one with the fewest.
/// What is held besides the facts are the tuples and their texts. The only error is want of memory.
pub fn answers_with_texts<'n>(
    alloc: Global,
    union: &Union,
    names: &'n Names,
    facts: &Facts,
) -> Result<Answers<'n>, NoMemory>
    ensures names { IfOk result (λ answers. answers.names ≡ names.now) }
    ensures answers { IfOk result (λ answers.
        AreAnswers names.now union.now facts.now answers.tuples) }
{
    let found = found_of(alloc, union, facts)?;
    let all = in_order(alloc, names, found)?;
    Ok(Answers::of(names, all))
}

/// The same without their texts.
pub fn answers(
    alloc: Global,
    union: &Union,
    names: &Names,
    facts: &Facts,
) -> Result<Vec<Tuple>, NoMemory>
    ensures { IfOk result (λ tuples. AreAnswers names.now union.now facts.now tuples.items) }
{
    answers_with_texts(alloc, union, names, facts)?.into_tuples(alloc)
}
