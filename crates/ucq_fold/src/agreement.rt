//! Lists of terms set beside others.
ghost use Rattle.std.specs.Prelude.{◌≡◌, zip};
ghost use Rattle.std.specs.List.{list_all};
ghost use Rattle.ucq_terms.specs.Numbering.{term_eq};
ghost use Rattle.ucq_fold.specs.inner.Agreement.{alike, agree, pair_alike, all_agree, renamed, goes_with};

use ucq_terms::{Atom, Term};

fn is_same_term(a: Term, b: Term) -> bool
    ensures { result ≡ term_eq a b }
{
    match (a, b) {
        (Term::Constant(c), Term::Constant(d)) => c == d,
        (Term::Variable(v), Term::Variable(w)) => v == w,
        _ => false,
    }
}

fn is_alike(s: Term, t: Term) -> bool
    ensures { result ≡ alike s t }
{
    match (s, t) {
        (Term::Constant(c), Term::Constant(d)) => c == d,
        (Term::Variable(_), Term::Variable(_)) => true,
        _ => false,
    }
}

fn agrees(s: Term, t: Term, u: Term, v: Term) -> bool
    ensures { result ≡ agree (s, t) (u, v) }
{
    if is_same_term(s, u) {
        is_same_term(t, v)
    } else {
        !is_same_term(t, v)
    }
}

fn agrees_with_each(s: Term, t: Term, us: &[Term], vs: &[Term]) -> bool
    ensures { result ≡ list_all (agree (s, t)) (zip us.now vs.now) }
{
    us.iter().zip(vs).all(|(u, v)| agrees(s, t, *u, *v))
}

/// Whether terms of `xs` and of `us` are equal exactly where those beside them are, of `ys` and of `vs`.
pub fn all_agree(xs: &[Term], ys: &[Term], us: &[Term], vs: &[Term]) -> bool
    ensures { result ≡ all_agree (zip xs.now ys.now) (zip us.now vs.now) }
{
    xs.iter()
        .zip(ys)
        .all(|(s, t)| agrees_with_each(*s, *t, us, vs))
}

fn all_alike(xs: &[Term], ys: &[Term]) -> bool
    ensures { result ≡ list_all pair_alike (zip xs.now ys.now) }
{
    xs.iter().zip(ys).all(|(s, t)| is_alike(*s, *t))
}

/// Whether the second list is the first one with its variables renamed one to one.
pub fn is_renamed(xs: &[Term], ys: &[Term]) -> bool
    ensures { result ≡ renamed xs.now ys.now }
{
    xs.len() == ys.len() && all_alike(xs, ys) && all_agree(xs, ys, xs, ys)
}

/// Whether the atom becomes its image, and the answers theirs, by one renaming of variables, one to one.
pub fn goes_with_answers(atom: &Atom, image: &Atom, answers: &[Term], images: &[Term]) -> bool
    ensures { result ≡ goes_with atom.now image.now answers.now images.now }
{
    atom.name() == image.name()
        && is_renamed(atom.terms(), image.terms())
        && all_agree(atom.terms(), image.terms(), answers, images)
}
