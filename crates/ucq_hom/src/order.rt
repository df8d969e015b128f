//! The order in which a search visits the atoms: next comes an atom with the most terms bound by then.
ghost use Rattle.std.specs.Prelude.{◌≡◌, ◌<◌, ◌≤◌, ℕ, length, slice_index};
ghost use Rattle.ucq_terms.specs.declared.TheConstants.{ATOMS};
ghost use Rattle.ucq_hom.specs.Search.{ArePlaces, IsOrder};

use ucq_terms::{Atom, Term};

/// Sets or takes away the marks of the variables among the terms.
fn mark(marks: &mut [bool], terms: &[Term], bound: bool) {
    for term in terms {
        if let Term::Variable(variable) = *term {
            if let Some(place) = marks.get_mut(variable as usize) {
                *place = bound;
            }
        }
    }
}

fn is_bound(marks: &[bool], term: Term) -> bool {
    match term {
        Term::Constant(_) => true,
        Term::Variable(variable) => marks.get(variable as usize).copied().unwrap_or(false),
    }
}

fn count_bound(marks: &[bool], terms: &[Term]) -> usize {
    terms.iter().filter(|term| is_bound(marks, **term)).count()
}

/// Where in the order, from `at` on, an atom stands with the most bound terms: the one at the place `first` if it is one
/// of them.
fn most_bound(marks: &[bool], atoms: &[Atom], order: &[u32], at: usize, first: usize) -> usize
    requires at { at < length order.now }
    requires places { ArePlaces atoms.now order.now }
    ensures { result < length order.now }
{
    let mut best = at;
    let mut most = 0;
    for i in at..order.len() {
        let place = order[i] as usize;
        let count = count_bound(marks, atoms[place].terms());
        if count > most || count == most && place == first {
            best = i;
            most = count;
        }
    }
    best
}

/// Writes the numbers from 0 on.
pub fn number(order: &mut [u32])
    requires { length order.old ≤ ATOMS }
    ensures { (k : ℕ) → k < length order.new → slice_index order.new k ≡ k }
{
    for i in 0..order.len() {
        order[i] = i as u32;
    }
}

fn unmark_atoms(marks: &mut [bool], atoms: &[Atom]) {
    for atom in atoms {
        mark(marks, atom.terms(), false);
    }
}

/// Writes the places of the atoms in the order in which a search visits them, where the variables of the answers are
/// bound before. Of atoms with equally many bound terms the one at the place `first` comes before the others. All marks
/// are free before and after. Takes the time of the square of the number of atoms.
pub fn order_atoms(
    marks: &mut [bool],
    answers: &[Term],
    atoms: &[Atom],
    order: &mut [u32],
    first: usize,
)
    requires length { length order.old ≡ length atoms.now }
    requires few { length atoms.now ≤ ATOMS }
    ensures { IsOrder atoms.now order.new }
{
    number(order);
    mark(marks, answers, true);
    for i in 0..order.len() {
        let best = most_bound(marks, atoms, order, i, first);
        order.swap(i, best);
        mark(marks, atoms[order[i] as usize].terms(), true);
    }
    unmark_atoms(marks, atoms);
    mark(marks, answers, false);
}
