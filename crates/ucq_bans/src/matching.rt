//! The matching of terms onto others, under what is bound.
ghost use Rattle.std.specs.Prelude.{◌≡◌, ◌<◌, ℕ, [], ◌∷◌, true, false, IsTrue, ◌↔◌};
ghost use Rattle.ucq_terms.specs.declared.TheConstants.{VARIABLES};
ghost use Rattle.ucq_terms.specs.declared.Term.TheVariants.{Variable};
ghost use Rattle.ucq_hom.specs.Bindings.{IsMatched, IsClash};
ghost use Rattle.ucq_hom.specs.Search.{HasLowTerms};
ghost use Rattle.ucq_bans.specs.inner.Search.{value as value_of};

use crate::bindings::Bindings;
use ucq_terms::Term;

/// What the term is bound to. A constant is bound to itself.
pub(crate) fn value(bindings: &Bindings, term: Term) -> Option<Term>
    ensures { result ≡ value_of bindings.now term }
{
    match term {
        Term::Constant(_) => Some(term),
        Term::Variable(variable) => bindings.get(variable),
    }
}

fn is_same_term(a: Term, b: Term) -> bool
    ensures { IsTrue result ↔ (a ≡ b) }
{
    match (a, b) {
        (Term::Constant(c), Term::Constant(d)) => c == d,
        (Term::Variable(v), Term::Variable(w)) => v == w,
        _ => false,
    }
}

/// Binds the term to the target if it is a free variable; else it must be the target, or be bound to it.
fn match_term(bindings: &mut Bindings, term: Term, target: Term) -> bool
    requires { (v : ℕ) → term ≡ Variable v → v < VARIABLES }
    ensures matched { result ≡ true →
        IsMatched bindings.old bindings.new (term ∷ []) (target ∷ []) }
    ensures clash { result ≡ false → IsClash bindings.old (term ∷ []) (target ∷ []) }
    ensures undone { result ≡ false → bindings.new ≡ bindings.old }
{
    match term {
        Term::Constant(_) => is_same_term(term, target),
        Term::Variable(variable) => match bindings.get(variable) {
            Some(bound) => is_same_term(bound, target),
            None => {
                bindings.bind(variable, target);
                true
            },
        },
    }
}

/// Binds the free variables among the terms so that the terms are carried to the targets. If no such bindings go with
/// those that stand, nothing changes.
pub(crate) fn match_terms(bindings: &mut Bindings, terms: &[Term], targets: &[Term]) -> bool
    requires { HasLowTerms terms.now }
    ensures matched { result ≡ true → IsMatched bindings.old bindings.new terms.now targets.now }
    ensures clash { result ≡ false → IsClash bindings.old terms.now targets.now }
    ensures undone { result ≡ false → bindings.new ≡ bindings.old }
{
    if terms.len() != targets.len() {
        return false;
    }
    let mark = bindings.mark();
    for i in 0..terms.len() {
        if !match_term(bindings, terms[i], targets[i]) {
            bindings.undo(mark);
            return false;
        }
    }
    true
}
