//! Levels of variables, and sets of levels. The level of a variable is the place, in the order of a search, of the atom
//! that bound it; a variable that was bound before the atoms has the level `ATOMS`. A set has a bit for each
//! level below `LEVELS`, and all others.
ghost use Rattle.std.specs.Prelude.{◌≡◌, ◌<◌, ◌≤◌, ◌↔◌, ℕ, drop, length, Contains, IsSome, IsTrue};
ghost use Rattle.ucq_terms.specs.declared.Term.TheVariants.{Variable};
ghost use Rattle.ucq_terms.specs.declared.TheConstants.{VARIABLES};
ghost use Rattle.ucq_hom.specs.Space.{image};
ghost use Rattle.ucq_hom.specs.Levels.{Counts, HasLevelsOf, IsNoted, IsLevelSubset, level_of};
ghost use Rattle.ucq_hom.specs.Search.{HasLowTerms};

use crate::bindings::Bindings;
use ucq_terms::Term;

/// How many levels a set tells apart. Every set is taken to have all others, so that nothing jumps past their atoms.
pub const LEVELS: u32 = 128;

/// Whether the level is in the set.
pub fn has_level(set: u128, level: u32) -> bool
    ensures { IsTrue result ↔ Counts set level }
{
    level >= LEVELS || set >> level & 1 == 1
}

/// The levels of both sets.
pub fn union(a: u128, b: u128) -> u128
    ensures left { IsLevelSubset a result }
    ensures right { IsLevelSubset b result }
{
    a | b
}

fn with_level(set: u128, level: u32) -> u128
    ensures added { Counts result level }
    ensures kept { IsLevelSubset set result }
{
    if level < LEVELS {
        set | 1 << level
    } else {
        set
    }
}

fn with_binder(bindings: &Bindings, levels: &[u32], set: u128, term: Term) -> u128
    requires room { length levels.now ≡ VARIABLES }
    requires low { (v : ℕ) → term ≡ Variable v → v < VARIABLES }
    ensures added { (v : ℕ) →
        term ≡ Variable v →
        IsSome (image bindings.now.images v) →
        Counts result (level_of levels.now v) }
    ensures kept { IsLevelSubset set result }
{
    match term {
        Term::Constant(_) => set,
        Term::Variable(variable) => match bindings.get(variable) {
            None => set,
            Some(_) => with_level(set, levels[variable as usize]),
        },
    }
}

/// The levels of the bound variables among the terms.
pub fn binders(bindings: &Bindings, levels: &[u32], terms: &[Term]) -> u128
    requires room { length levels.now ≡ VARIABLES }
    requires low { HasLowTerms terms.now }
    ensures { HasLevelsOf bindings.now levels.now result terms.now }
{
    let mut set = 0;
    for i in 0..terms.len() {
        set = with_binder(bindings, levels, set, terms[i]);
    }
    set
}

fn note(levels: &mut [u32], variables: &[u32], level: u32)
    requires { (v : ℕ) → Contains variables.now v → v < length levels.old }
    ensures { IsNoted levels.old levels.new variables.now level }
{
    for i in 0..variables.len() {
        levels[variables[i] as usize] = level;
    }
}

/// Gives the variables that were bound since the mark this level.
pub fn note_since(bindings: &Bindings, mark: usize, levels: &mut [u32], level: u32)
    requires mark { mark ≤ length bindings.now.trail }
    requires room { length levels.old ≡ VARIABLES }
    ensures { IsNoted levels.old levels.new (drop mark bindings.now.trail) level }
{
    note(levels, bindings.bound_since(mark), level);
}
