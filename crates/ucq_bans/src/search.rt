//! The search for the maps of a query's atoms into facts, by the index of the facts.
ghost use Rattle.std.specs.Prelude.{◌≡◌, ◌≤◌, ◌↔◌, length, map, false, Any, Contains, IsTrue, OnOk};
ghost use Rattle.ucq_terms.specs.declared.TheConstants.{ATOMS};
ghost use Rattle.ucq_terms.specs.Syntax.{HasEachOnce};
ghost use Rattle.ucq_hom.specs.Search.{ArePlaces, HasLowAtoms, IsOrder};
ghost use Rattle.ucq_bans.specs.inner.Search.{AreApart, AreTargets, GivesSet, IsGrownBy, IsSetOf, SomeSends};

use crate::bindings::Bindings;
use crate::matching::{match_terms, value};
use indexmap::IndexSet;
use std::alloc::Global;
use ucq_facts::Facts;
use ucq_hom::order_atoms;
use ucq_terms::{Atom, NoMemory, Term, VARIABLES};

/// Which of the atoms, of which there is one, has the fewest facts of its predicate.
fn rarest(facts: &Facts, atoms: &[Atom]) -> usize {
    let mut rarest = 0;
    let mut fewest = facts.len() as usize;
    for place in 0..atoms.len() {
        let atom = &atoms[place];
        let count = facts
            .places(atom.name(), atom.terms().len() as u32, None)
            .len();
        if count < fewest {
            rarest = place;
            fewest = count;
        }
    }
    rarest
}

/// Writes the places of the atoms in the order in which they are sent to facts: an atom with the most bound terms is next,
/// and of these at the beginning one with the fewest facts.
pub(crate) fn order_for(facts: &Facts, atoms: &[Atom], order: &mut [u32])
    requires length { length order.old ≡ length atoms.now }
    requires few { length atoms.now ≤ ATOMS }
    ensures { IsOrder atoms.now order.new }
{
    let mut marks = [false; VARIABLES as usize];
    order_atoms(&mut marks, &[], atoms, order, rarest(facts, atoms));
}

/// The places of the facts of the atom's predicate with what a term of it is bound to at that term's place: of these lists,
/// and that of all facts of the predicate, the shortest, or the first that has one place at most.
fn targets<'f>(bindings: &Bindings, facts: &'f Facts, atom: &Atom) -> &'f [u32]
    ensures { AreTargets bindings.now facts.now atom.now result.now }
{
    let arity = atom.terms().len() as u32;
    let mut best = facts.places(atom.name(), arity, None);
    for place in 0..arity {
        if best.len() > 1 {
            if let Some(term) = value(bindings, atom.terms()[place as usize]) {
                let found = facts.places(atom.name(), arity, Some((place, term)));
                if found.len() < best.len() {
                    best = found;
                }
            }
        }
    }
    best
}

/// Whether one of the terms is one of the others.
fn share(terms: &[Term], others: &[Term]) -> bool
    ensures { IsTrue result ↔ Any (Contains others.now) terms.now }
{
    terms.iter().any(|term| others.contains(term))
}

/// Whether one of the terms stands in one of the atoms at these places.
fn meets(atoms: &[Atom], places: &[u32], terms: &[Term]) -> bool
    requires { ArePlaces atoms.now places.now }
    ensures { result ≡ false → AreApart atoms.now places.now terms.now }
{
    for place in places {
        if share(terms, atoms[*place as usize].terms()) {
            return true;
        }
    }
    false
}

/// Whether some map that agrees with what is bound sends the atoms at these places to facts. Where the others can't be sent
/// and don't meet an atom, no further target is tried for it.
pub(crate) fn is_sent(bindings: &mut Bindings, atoms: &[Atom], facts: &Facts, order: &[u32]) -> bool
    requires low { HasLowAtoms atoms.now }
    requires places { ArePlaces atoms.now order.now }
    ensures sent { IsTrue result ↔ SomeSends bindings.old atoms.now order.now facts.now }
    ensures bindings { bindings.new ≡ bindings.old }
{
    let Some((place, rest)) = order.split_first() else {
        return true;
    };
    let atom = &atoms[*place as usize];
    for target in targets(bindings, facts, atom) {
        let mark = bindings.mark();
        if match_terms(bindings, atom.terms(), facts.atom(*target).terms()) {
            let is_sent = is_sent(bindings, atoms, facts, rest);
            bindings.undo(mark);
            if is_sent {
                return true;
            }
            if !meets(atoms, rest, atom.terms()) {
                return false;
            }
        }
    }
    false
}

/// Adds the set of these places.
fn add(found: &mut IndexSet<Vec<u32>>, chosen: &[u32]) -> Result<(), NoMemory>
    ensures { OnOk
        result
        (IsGrownBy
        (IsSetOf chosen.now)
        (map (λ t. t.items) found.old.keys)
        (map (λ t. t.items) found.new.keys)) }
{
    let mut set = Vec::from_slice(*found.allocator(), chosen)?;
    set.sort_unstable();
    set.dedup();
    let _added = found.insert(set)?;
    Ok(())
}

/// Adds, for each map that agrees with what is bound and sends the atoms at these places to facts, the set of the places of
/// these facts and of those that were chosen before.
pub(crate) fn gather(
    bindings: &mut Bindings,
    atoms: &[Atom],
    facts: &Facts,
    order: &[u32],
    chosen: &mut Vec<u32>,
    found: &mut IndexSet<Vec<u32>>,
) -> Result<(), NoMemory>
    requires low { HasLowAtoms atoms.now }
    requires places { ArePlaces atoms.now order.now }
    requires once { HasEachOnce facts.now }
    ensures bindings { OnOk result (bindings.new ≡ bindings.old) }
    ensures chosen { OnOk result (chosen.new.items ≡ chosen.old.items) }
    ensures found { OnOk
        result
        (IsGrownBy
        (GivesSet bindings.old atoms.now order.now facts.now chosen.old.items)
        (map (λ t. t.items) found.old.keys)
        (map (λ t. t.items) found.new.keys)) }
{
    let Some((place, rest)) = order.split_first() else {
        return add(found, chosen.as_slice());
    };
    let atom = &atoms[*place as usize];
    for target in targets(bindings, facts, atom) {
        let mark = bindings.mark();
        if match_terms(bindings, atom.terms(), facts.atom(*target).terms()) {
            chosen.push(*target)?;
            gather(bindings, atoms, facts, rest, chosen, found)?;
            let _ = chosen.pop();
            bindings.undo(mark);
        }
    }
    Ok(())
}
