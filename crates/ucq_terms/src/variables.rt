//! Variables numbered by first occurrence.
ghost use Rattle.std.specs.Prelude.{◌≡◌, ◌<◌, ◌≤◌, ◌+◌, ◌*◌, ◌^◌, ◌∷◌, [], length, OnOk};
ghost use Rattle.ucq_terms.specs.Numbering.{order_with, numbered_term, numbered_terms, numbered_atoms, terms_of};

use crate::{Atom, NoMemory, Term};
use indexmap::IndexSet;

// Puts the variable's place in the order for the variable, which stands last there where it is new.
fn number_term(order: &mut IndexSet<u32>, term: &mut Term) -> Result<(), NoMemory>
    requires { length order.old.keys + 1 < 2 ^ 32 }
    ensures order { OnOk result (order.new.keys ≡ order_with order.old.keys (term.old ∷ [])) }
    ensures term { OnOk result (term.new ≡ numbered_term order.new.keys term.old) }
    ensures few { OnOk result (length order.new.keys ≤ length order.old.keys + 1) }
{
    if let Term::Variable(variable) = *term {
        let (place, _added) = order.insert_full(variable)?;
        *term = Term::Variable(place as u32);
    }
    Ok(())
}

/// Numbers the variables of the terms by their places in the order, which new ones lengthen.
pub(crate) fn number_terms(order: &mut IndexSet<u32>, terms: &mut [Term]) -> Result<(), NoMemory>
    requires { length order.old.keys + length terms.old < 2 ^ 32 }
    ensures order { OnOk result (order.new.keys ≡ order_with order.old.keys terms.old) }
    ensures terms { OnOk result (terms.new ≡ numbered_terms order.new.keys terms.old) }
    ensures few { OnOk result (length order.new.keys ≤ length order.old.keys + length terms.old) }
{
    for term in terms.iter_mut() {
        number_term(order, term)?;
    }
    Ok(())
}

/// Numbers the variables of the atoms by their places in the order, which new ones lengthen.
pub(crate) fn number_atoms(order: &mut IndexSet<u32>, atoms: &mut [Atom]) -> Result<(), NoMemory>
    requires { length order.old.keys + 16 * length atoms.old < 2 ^ 32 }
    ensures order { OnOk result (order.new.keys ≡ order_with order.old.keys (terms_of atoms.old)) }
    ensures atoms { OnOk result (atoms.new ≡ numbered_atoms order.new.keys atoms.old) }
    ensures few { OnOk
        result
        (length order.new.keys ≤ length order.old.keys + 16 * length atoms.old) }
{
    for atom in atoms.iter_mut() {
        atom.number(order)?;
    }
    Ok(())
}
