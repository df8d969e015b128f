//! Bounds above variables.
ghost use Rattle.std.specs.Prelude.{◌≡◌, ◌<◌, ◌≤◌, ℕ, Contains};
ghost use Rattle.ucq_terms.specs.declared.TheConstants.{VARIABLES};
ghost use Rattle.ucq_terms.specs.declared.Term.TheVariants.{Variable};
ghost use Rattle.ucq_terms.specs.Syntax.{OccursIn};

use ucq_terms::{Atom, Term};

/// A number above the variables of the atoms.
pub fn variable_bound(atoms: &[Atom]) -> u32
    requires { (v : ℕ) → OccursIn atoms.now (Variable v) → v < VARIABLES }
    ensures covers { (v : ℕ) → OccursIn atoms.now (Variable v) → v < result }
    ensures low { result ≤ VARIABLES }
{
    let mut bound = 0;
    for atom in atoms {
        bound = raise_all(bound, atom.terms());
    }
    bound
}

// A number that is no less than the bound, and above the term where that is a variable.
fn raise(bound: u32, term: Term) -> u32
    requires { (v : ℕ) → term ≡ Variable v → v < VARIABLES }
    ensures keeps { bound ≤ result }
    ensures covers { (v : ℕ) → term ≡ Variable v → v < result }
    ensures low { bound ≤ VARIABLES → result ≤ VARIABLES }
{
    match term {
        Term::Constant(_) => bound,
        Term::Variable(variable) if variable < bound => bound,
        Term::Variable(variable) => variable + 1,
    }
}

// The same with all these terms.
fn raise_all(bound: u32, terms: &[Term]) -> u32
    requires { (v : ℕ) → Contains terms.now (Variable v) → v < VARIABLES }
    ensures keeps { bound ≤ result }
    ensures covers { (v : ℕ) → Contains terms.now (Variable v) → v < result }
    ensures low { bound ≤ VARIABLES → result ≤ VARIABLES }
{
    let mut raised = bound;
    for term in terms {
        raised = raise(raised, *term);
    }
    raised
}
