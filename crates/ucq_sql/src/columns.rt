//! The columns where the terms of a query stand.
ghost use Rattle.std.specs.Prelude.{◌≡◌, ◌<◌, ◌≤◌, ◌^◌, length};
ghost use Rattle.std.specs.List.{position_or_len};
ghost use Rattle.ucq_terms.specs.Numbering.{term_eq};
ghost use Rattle.ucq_sql.specs.Selects.{condition_of, first_column as first_column_of, output_of};

use crate::{Column, Condition, Output};
use ucq_terms::{Atom, Term};

/// The first column that holds the term, in the order of the atoms; column 0 of alias 0 where none does.
fn first_column(atoms: &[Atom], term: Term) -> Column
    requires { length atoms.now < 2 ^ 32 }
    ensures { result ≡ first_column_of atoms.now term }
{
    for (alias, atom) in atoms.iter().enumerate() {
        let column = first_place(atom.terms(), term);
        if column < atom.terms().len() as u32 {
            return Column {
                alias: alias as u32,
                column,
            };
        }
    }
    Column {
        alias: 0,
        column: 0,
    }
}

/// The first place of the term, or how many terms there are.
fn first_place(terms: &[Term], term: Term) -> u32
    requires { length terms.now < 2 ^ 32 }
    ensures place { result ≡ position_or_len (term_eq term) terms.now }
    ensures within { result ≤ length terms.now }
{
    for (place, other) in terms.iter().enumerate() {
        if term == *other {
            return place as u32;
        }
    }
    terms.len() as u32
}

/// What a select lists for the term of an answer list.
pub(crate) fn output(atoms: &[Atom], term: Term) -> Output
    requires { length atoms.now < 2 ^ 32 }
    ensures { result ≡ output_of atoms.now term }
{
    match term {
        Term::Constant(constant) => Output::Value(constant),
        Term::Variable(_) => Output::Read(first_column(atoms, term)),
    }
}

/// What a select asks for the term in this column, if anything.
pub(crate) fn condition(atoms: &[Atom], here: Column, term: Term) -> Option<Condition>
    requires { length atoms.now < 2 ^ 32 }
    ensures { result ≡ condition_of atoms.now here term }
{
    match term {
        Term::Constant(constant) => Some(Condition::Is(here, constant)),
        Term::Variable(_) => {
            let first = first_column(atoms, term);
            if here == first {
                None
            } else {
                Some(Condition::Same(here, first))
            }
        }
    }
}
