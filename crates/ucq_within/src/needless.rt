//! A rule's head and body as queries, which tell whether other rules make the rule needless.
ghost use Rattle.std.specs.Prelude.{◌≡◌, ◌<◌, ◌≤◌, ◌∷◌, [], IfOk, OnOk, length, map, vec_len};
ghost use Rattle.ucq_terms.specs.declared.Term.TheVariants.{Variable as variable};
ghost use Rattle.ucq_terms.specs.Syntax.{IsSafe};
ghost use Rattle.ucq_terms.specs.Numbering.{normal_query, terms_of};
ghost use Rattle.ucq_within.specs.Needless.{AreRuleQueries, frontier_of};
ghost use Rattle.ucq_within.specs.inner.Frontier.{with_frontier};

use crate::minimal::occurs;
use indexmap::IndexSet;
use std::alloc::Global;
use ucq_terms::{Atom, NoMemory, Query, QueryFault, Rule, Term};

/// The head and the body of the rule as queries, each of which asks for the rule's frontier in order of first occurrence in
/// the head; none where the frontier has more than 16 variables. Want of memory is the one error.
///
/// The rule follows from others exactly where, under them, the body's query is contained in the head's
/// (`laws::follows_is_containment`).
pub fn rule_queries(alloc: Global, rule: &Rule) -> Result<Option<(Query, Query)>, NoMemory>
    ensures { IfOk result (AreRuleQueries rule.now) }
{
    let frontier = frontier(alloc, rule)?;
    if frontier.len() > 16 {
        return Ok(None);
    }
    let head = asked_for(alloc, frontier.as_slice(), rule.heads())?;
    let body = asked_for(alloc, frontier.as_slice(), rule.body())?;
    Ok(Some((head, body)))
}

/// The rule's frontier, in order of first occurrence in the head.
fn frontier(alloc: Global, rule: &Rule) -> Result<IndexSet<u32>, NoMemory>
    ensures { IfOk result (λ frontier. frontier.keys ≡ frontier_of rule.now) }
{
    let mut frontier = IndexSet::new(alloc);
    for atom in rule.heads() {
        note_terms(&mut frontier, rule.body(), atom.terms())?;
    }
    Ok(frontier)
}

/// Adds those variables of the terms that stand in the body.
fn note_terms(frontier: &mut IndexSet<u32>, body: &[Atom], terms: &[Term]) -> Result<(), NoMemory>
    ensures { OnOk
        result
        (frontier.new.keys ≡ with_frontier body.now frontier.old.keys terms.now) }
{
    for term in terms {
        note_term(frontier, body, *term)?;
    }
    Ok(())
}

/// Adds the term, if it is a variable that stands in the body.
fn note_term(frontier: &mut IndexSet<u32>, body: &[Atom], term: Term) -> Result<(), NoMemory>
    ensures { OnOk
        result
        (frontier.new.keys ≡ with_frontier body.now frontier.old.keys (term ∷ [])) }
{
    if let Term::Variable(variable) = term {
        if occurs(body, term) {
            frontier.insert(variable)?;
        }
    }
    Ok(())
}

/// The atoms as a query that asks for the variables, each of which stands in one of them.
fn asked_for(alloc: Global, variables: &[u32], atoms: &[Atom]) -> Result<Query, NoMemory>
    requires few_variables { length variables.now ≤ 16 }
    requires few_atoms { length atoms.now ≤ 32 }
    requires safe { IsSafe (record { answers = map variable variables.now; atoms = atoms.now }) }
    ensures { IfOk result (λ q.
        q ≡ normal_query (record { answers = map variable variables.now; atoms = atoms.now })) }
{
    let answers = terms_from(alloc, variables)?;
    let atoms = copied(alloc, atoms)?;
    match Query::new(alloc, answers, atoms) {
        Ok(query) => Ok(query),
        Err(QueryFault::Memory) => Err(NoMemory),
        Err(QueryFault::Unsafe { .. }) => unreachable!(),
        Err(QueryFault::TooManyAtoms { .. }) => unreachable!(),
    }
}

/// The variables as terms.
fn terms_from(alloc: Global, variables: &[u32]) -> Result<Vec<Term>, NoMemory>
    ensures { IfOk result (λ terms. terms.items ≡ map variable variables.now) }
{
    let mut terms = Vec::with_capacity(alloc, variables.len())?;
    for variable in variables {
        terms.push(Term::Variable(*variable))?;
    }
    Ok(terms)
}

/// The atoms, copied.
fn copied(alloc: Global, atoms: &[Atom]) -> Result<Vec<Atom>, NoMemory>
    ensures { IfOk result (λ copy. copy.items ≡ atoms.now) }
{
    let mut copy = Vec::with_capacity(alloc, atoms.len())?;
    for atom in atoms {
        copy.push(atom.clone()?)?;
    }
    Ok(copy)
}
