//! A problem whose rules are found by the names in their heads.
ghost use Rattle.std.specs.Prelude.{◌≤◌, ◌<◌, ◌≡◌, OnOk, IfOk, length};
ghost use Rattle.ucq_terms.specs.declared.TheConstants.{RULES};
ghost use Rattle.ucq_pool.specs.inner.ByHead.{list_of, IsListed, AreListedBelow, AreListedBefore, AreRelevant};

use indexmap::IndexMap;
use std::alloc::Global;
use std::marker::Model;
use ucq_terms::{NoMemory, Problem, Query, Rule};

/// A problem, and for each name the numbers of the rules in whose heads it stands. Contracts see the problem.
#[derive(Drop)]
pub(crate) struct IndexedProblem<'p> {
    problem: &'p Problem,
    lists: IndexMap<u32, Vec<u32>>,
}

impl<'p> Model for IndexedProblem<'p> {
    ghost use Rattle.std.specs.Prelude.{length};
    ghost use Rattle.ucq_terms.specs.Syntax.{Problem as ProblemValue};
    ghost use Rattle.ucq_pool.specs.inner.ByHead.{AreListedBelow};

    ghost Value = { ProblemValue };

    ghost view = { λ p. p.problem.now };

    ghost invariant = { λ p.
        AreListedBelow p.problem.now.rules (length p.problem.now.rules) p.lists };
}

impl<'p> IndexedProblem<'p> {
    /// The problem, with its rules listed by the names in their heads.
    pub(crate) fn new(alloc: Global, problem: &'p Problem) -> Result<IndexedProblem<'p>, NoMemory>
        ensures { IfOk result (λ p. p ≡ problem.entry.now) }
    {
        let lists = listed_heads(alloc, problem.rules())?;
        Ok(IndexedProblem { problem, lists })
    }

    /// The problem.
    pub(crate) fn problem(&self) -> &'p Problem
        ensures { result.now ≡ self.now }
    {
        self.problem
    }

    /// The numbers of rules, in order, among which are all that have a piece with the query. Takes the time of the rules
    /// that share a name with it.
    pub(crate) fn relevant(&self, alloc: Global, query: &Query) -> Result<Vec<u32>, NoMemory>
        ensures { IfOk result (λ numbers. AreRelevant self.now.rules query.now numbers.items) }
    {
        let mut numbers = Vec::new(alloc);
        for atom in query.atoms() {
            numbers.extend_from_slice(listed(&self.lists, atom.name()))?;
        }
        numbers.sort_unstable();
        numbers.dedup();
        Ok(numbers)
    }
}

// The numbers of the rules by the names in their heads.
fn listed_heads(alloc: Global, rules: &[Rule]) -> Result<IndexMap<u32, Vec<u32>>, NoMemory>
    requires { length rules.now ≤ RULES }
    ensures { IfOk result (AreListedBelow rules.now (length rules.now)) }
{
    let mut lists = IndexMap::new(alloc);
    for number in 0..rules.len() {
        list_heads(&mut lists, &rules[number], number as u32)?;
    }
    Ok(lists)
}

// The list of the name.
fn listed(lists: &IndexMap<u32, Vec<u32>>, name: u32) -> &[u32]
    ensures { result.now ≡ list_of lists.now name }
{
    match lists.get(&name) {
        Some(list) => list.as_slice(),
        None => &[],
    }
}

// Puts the number into the list of the name.
fn list(lists: &mut IndexMap<u32, Vec<u32>>, name: u32, number: u32) -> Result<(), NoMemory>
    ensures { OnOk result (IsListed lists.old name number lists.new) }
{
    if let Some(list) = lists.get_mut(&name) {
        list.push(number)?;
        return Ok(());
    }
    let mut list = Vec::new(*lists.allocator());
    list.push(number)?;
    lists.insert(name, list)?;
    Ok(())
}

// Puts the number of the rule into the list of each name in its head.
fn list_heads(lists: &mut IndexMap<u32, Vec<u32>>, rule: &Rule, number: u32) -> Result<(), NoMemory>
    ensures { OnOk
        result
        (AreListedBefore rule.now.heads (length rule.now.heads) number lists.old lists.new) }
{
    let heads = rule.heads();
    for place in 0..heads.len() {
        list(lists, heads[place].name(), number)?;
    }
    Ok(())
}
