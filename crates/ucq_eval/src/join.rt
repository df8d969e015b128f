//! The join of a query's atoms over facts.
ghost use Rattle.std.specs.Prelude.{◌≡◌, ◌<◌, ◌≤◌, ℕ, ◌∷◌, [], length, map, Contains, IsTrue, ◌↔◌, true, false, OnOk, slice_index};
ghost use Rattle.ucq_terms.specs.Unifier.{atom_at};
ghost use Rattle.ucq_hom.specs.Search.{ArePlaces};
ghost use Rattle.ucq_eval.specs.inner.Join.{IsGrownBy, IsCollected, SendsToTuple, GivesBy, value as value_of, HasUnknown, TellsTuple, TellsNone, AreReached, HasSamePlaces, AreTargets, IsChoice};

use indexmap::IndexSet;
use ucq_facts::{Facts, Matches};
use ucq_hom::bindings::Bindings;
use ucq_hom::matching::match_terms;
use ucq_terms::{ATOMS, Atom, NoMemory, Query, Term};

/// What the term is bound to. A constant is bound to itself.
fn value(bindings: &Bindings, term: Term) -> Option<Term>
    ensures { result ≡ value_of bindings.now term }
{
    match term {
        Term::Constant(_) => Some(term),
        Term::Variable(variable) => bindings.get(variable),
    }
}

/// Whether one of the terms is bound to a variable of a fact, which is an unknown value.
fn has_unknown(bindings: &Bindings, terms: &[Term]) -> bool
    ensures { IsTrue result ↔ HasUnknown bindings.now terms.now }
{
    for term in terms {
        if let Some(Term::Variable(_)) = value(bindings, *term) {
            return true;
        }
    }
    false
}

/// Writes the constants that the terms are bound to, if each is bound to one.
fn read(bindings: &Bindings, terms: &[Term], tuple: &mut [u32]) -> bool
    requires { length tuple.old ≡ length terms.now }
    ensures read { result ≡ true → TellsTuple bindings.now terms.now tuple.new }
    ensures unread { result ≡ false → TellsNone bindings.now terms.now }
{
    for i in 0..terms.len() {
        match value(bindings, terms[i]) {
            Some(Term::Constant(constant)) => tuple[i] = constant,
            _ => return false,
        }
    }
    true
}

/// The facts of the atom's predicate with what a term of it is bound to at that term's place: of these lists, and that of
/// all facts of the predicate, the shortest, or the first that has one fact at most.
fn targets<'f>(bindings: &Bindings, facts: &'f Facts, atom: &Atom) -> Matches<'f>
    ensures { AreTargets bindings.now facts.now atom.now result }
{
    let arity = atom.terms().len() as u32;
    let mut best = facts.matching(atom.name(), arity, None);
    for place in 0..arity {
        if best.len() > 1 {
            if let Some(term) = value(bindings, atom.terms()[place as usize]) {
                let found = facts.matching(atom.name(), arity, Some((place, term)));
                if found.len() < best.len() {
                    best = found;
                }
            }
        }
    }
    best
}

/// Where in the list the place of the atom stands that has the fewest such facts, or of which the first is known to have one
/// at most; and these facts.
fn next_atom<'f>(
    bindings: &Bindings,
    facts: &'f Facts,
    atoms: &[Atom],
    places: &[u32],
) -> (usize, Matches<'f>)
    requires some { 0 < length places.now }
    requires places { ArePlaces atoms.now places.now }
    ensures { IsChoice bindings.now facts.now atoms.now places.now result.0 result.1 }
{
    let mut best = 0;
    let mut fewest = targets(bindings, facts, &atoms[places[0] as usize]);
    for i in 1..places.len() {
        if fewest.len() > 1 {
            let found = targets(bindings, facts, &atoms[places[i] as usize]);
            if found.len() < fewest.len() {
                best = i;
                fewest = found;
            }
        }
    }
    (best, fewest)
}

/// Adds the tuple.
fn add(found: &mut IndexSet<Vec<u32>>, tuple: &[u32]) -> Result<(), NoMemory>
    ensures { OnOk
        result
        (IsGrownBy
        (λ t. t ≡ tuple.now)
        (map (λ t. t.items) found.old.keys)
        (map (λ t. t.items) found.new.keys)) }
{
    let held = Vec::from_slice(*found.allocator(), tuple)?;
    let _added = found.insert(held)?;
    Ok(())
}

/// Whether the tuple was found.
fn is_found(found: &IndexSet<Vec<u32>>, tuple: &[u32]) -> bool
    ensures { IsTrue result ↔ Contains (map (λ t. t.items) found.now.keys) tuple.now }
{
    found.contains(tuple)
}

/// Adds the tuples that are given by the maps which agree with what is bound and send the atoms at these places to facts.
/// Nothing is searched where an answer is bound to an unknown value, or all are bound and the tuple was found before. The
/// places may stand in another order then.
#[cycle(join)]
fn explore(
    bindings: &mut Bindings,
    query: &Query,
    facts: &Facts,
    places: &mut [u32],
    found: &mut IndexSet<Vec<u32>>,
) -> Result<(), NoMemory>
    requires places { ArePlaces query.now.atoms places.old }
    requires reached { AreReached bindings.old query.now places.old }
    ensures bindings { OnOk result (bindings.new ≡ bindings.old) }
    ensures places { OnOk result (HasSamePlaces places.old places.new) }
    ensures found { OnOk
        result
        (IsGrownBy
        (SendsToTuple bindings.old query.now places.old facts.now)
        (map (λ t. t.items) found.old.keys)
        (map (λ t. t.items) found.new.keys)) }
{
    let answers = query.answers();
    if has_unknown(bindings, answers) {
        return Ok(());
    }
    let mut room = [0; 16];
    let tuple = &mut room[..answers.len()];
    if read(bindings, answers, tuple) {
        if is_found(found, tuple) {
            return Ok(());
        }
        if places.is_empty() {
            return add(found, tuple);
        }
    }
    branch(bindings, query, facts, places, found)
}

/// The same, where there is a place. The atom that is chosen is sent to each of its facts in turn.
#[cycle(join)]
fn branch(
    bindings: &mut Bindings,
    query: &Query,
    facts: &Facts,
    places: &mut [u32],
    found: &mut IndexSet<Vec<u32>>,
) -> Result<(), NoMemory>
    requires some { 0 < length places.old }
    requires places { ArePlaces query.now.atoms places.old }
    requires reached { AreReached bindings.old query.now places.old }
    ensures bindings { OnOk result (bindings.new ≡ bindings.old) }
    ensures places { OnOk result (HasSamePlaces places.old places.new) }
    ensures found { OnOk
        result
        (IsGrownBy
        (SendsToTuple bindings.old query.now places.old facts.now)
        (map (λ t. t.items) found.old.keys)
        (map (λ t. t.items) found.new.keys)) }
{
    let (next, targets) = next_atom(bindings, facts, query.atoms(), places);
    places.swap(0, next);
    let place = places[0];
    let rest = &mut places[1..];
    for target in targets {
        visit(bindings, query, facts, place, target, rest, found)?;
    }
    Ok(())
}

/// Adds those of these tuples whose maps send the atom at the place to the target, a fact of the atom's name.
#[cycle(join)]
fn visit(
    bindings: &mut Bindings,
    query: &Query,
    facts: &Facts,
    place: u32,
    target: &Atom,
    rest: &mut [u32],
    found: &mut IndexSet<Vec<u32>>,
) -> Result<(), NoMemory>
    requires places { ArePlaces query.now.atoms (place ∷ rest.old) }
    requires reached { AreReached bindings.old query.now (place ∷ rest.old) }
    requires name { (atom_at query.now.atoms place).name ≡ target.now.name }
    ensures bindings { OnOk result (bindings.new ≡ bindings.old) }
    ensures places { OnOk result (HasSamePlaces rest.old rest.new) }
    ensures found { OnOk
        result
        (IsGrownBy
        (GivesBy bindings.old query.now place (target.now ∷ []) rest.old facts.now)
        (map (λ t. t.items) found.old.keys)
        (map (λ t. t.items) found.new.keys)) }
{
    let mark = bindings.mark();
    let atom = &query.atoms()[place as usize];
    if match_terms(bindings, atom.terms(), target.terms()) {
        explore(bindings, query, facts, rest, found)?;
        bindings.undo(mark);
    }
    Ok(())
}

/// Writes the numbers from 0 on.
fn number(places: &mut [u32])
    requires { length places.old ≤ ATOMS }
    ensures { (k : ℕ) → k < length places.new → slice_index places.new k ≡ k }
{
    for i in 0..places.len() {
        places[i] = i as u32;
    }
}

/// Adds the tuples of constants with which the query maps into the facts. What was bound is freed. After want of memory
/// some of them were added.
pub(crate) fn collect(
    bindings: &mut Bindings,
    query: &Query,
    facts: &Facts,
    found: &mut IndexSet<Vec<u32>>,
) -> Result<(), NoMemory>
    ensures { OnOk
        result
        (IsCollected
        query.now
        facts.now
        (map (λ t. t.items) found.old.keys)
        (map (λ t. t.items) found.new.keys)) }
{
    bindings.clear();
    let mut room = [0; ATOMS as usize];
    let places = &mut room[..query.atoms().len()];
    number(places);
    explore(bindings, query, facts, places, found)
}
