//! Lists of constants.
ghost use Rattle.std.specs.Prelude.{◌≡◌, ◌≢◌, ◌<◌, ◌≤◌, ◌+◌, ◌*◌, ◌^◌, ℕ, length, vec_len, OnOk, Contains, AllPairs, nat_eq};
ghost use Rattle.std.specs.List.{position_or_len};
ghost use Rattle.ucq_terms.specs.declared.Term.TheVariants.{Constant};
ghost use Rattle.ucq_terms.specs.Syntax.{OccursIn};

use ucq_terms::{Atom, NoMemory, Term};

/// The place of the constant, or the length where it has none.
pub fn place_of(constants: &[u32], constant: u32) -> u32
    requires { length constants.now < 2 ^ 32 }
    ensures place { result ≡ position_or_len (nat_eq constant) constants.now }
    ensures within { result ≤ length constants.now }
{
    for k in 0..constants.len() {
        if constant == constants[k] {
            return k as u32;
        }
    }
    constants.len() as u32
}

/// Adds the constants of the atoms.
pub fn note_atoms(constants: &mut Vec<u32>, atoms: &[Atom]) -> Result<(), NoMemory>
    ensures kept { (c : ℕ) → Contains constants.old.items c → Contains constants.new.items c }
    ensures noted { OnOk
        result
        ((c : ℕ) → OccursIn atoms.now (Constant c) → Contains constants.new.items c) }
    ensures once { AllPairs (λ (c d : ℕ). c ≢ d) constants.old.items →
        AllPairs (λ (c d : ℕ). c ≢ d) constants.new.items }
    ensures few { vec_len constants.new ≤ vec_len constants.old + 16 * length atoms.now }
{
    for atom in atoms {
        note_terms(constants, atom.terms())?;
    }
    Ok(())
}

// Adds the constants among the terms.
fn note_terms(constants: &mut Vec<u32>, terms: &[Term]) -> Result<(), NoMemory>
    ensures kept { (c : ℕ) → Contains constants.old.items c → Contains constants.new.items c }
    ensures noted { OnOk
        result
        ((c : ℕ) → Contains terms.now (Constant c) → Contains constants.new.items c) }
    ensures once { AllPairs (λ (c d : ℕ). c ≢ d) constants.old.items →
        AllPairs (λ (c d : ℕ). c ≢ d) constants.new.items }
    ensures few { vec_len constants.new ≤ vec_len constants.old + length terms.now }
{
    for term in terms {
        note_term(constants, *term)?;
    }
    Ok(())
}

// Adds the term where it is a constant.
fn note_term(constants: &mut Vec<u32>, term: Term) -> Result<(), NoMemory>
    ensures kept { (c : ℕ) → Contains constants.old.items c → Contains constants.new.items c }
    ensures noted { OnOk result ((c : ℕ) → term ≡ Constant c → Contains constants.new.items c) }
    ensures once { AllPairs (λ (c d : ℕ). c ≢ d) constants.old.items →
        AllPairs (λ (c d : ℕ). c ≢ d) constants.new.items }
    ensures few { vec_len constants.new ≤ vec_len constants.old + 1 }
{
    match term {
        Term::Constant(constant) => note(constants, constant),
        Term::Variable(_) => Ok(()),
    }
}

// Adds the constant where it isn't there.
fn note(constants: &mut Vec<u32>, constant: u32) -> Result<(), NoMemory>
    ensures kept { (c : ℕ) → Contains constants.old.items c → Contains constants.new.items c }
    ensures noted { OnOk result (Contains constants.new.items constant) }
    ensures once { AllPairs (λ (c d : ℕ). c ≢ d) constants.old.items →
        AllPairs (λ (c d : ℕ). c ≢ d) constants.new.items }
    ensures few { vec_len constants.new ≤ vec_len constants.old + 1 }
{
    if !constants.contains(&constant) {
        constants.push(constant)?;
    }
    Ok(())
}
