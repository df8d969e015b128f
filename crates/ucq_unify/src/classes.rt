//! The classes of terms that a choice of pairs joins, and what they tell.
ghost use Rattle.std.specs.Prelude.{◌≡◌, ◌<◌, ◌++◌, ◌⊎◌, ◌↔◌, ℕ, List, length, IsTrue, IfSome, Contains, Some, None, true, false};
ghost use Rattle.ucq_terms.specs.declared.Term.TheVariants.{Variable};
ghost use Rattle.ucq_terms.specs.Syntax.{OccursIn};
ghost use Rattle.ucq_terms.specs.Unifier.{Node as NodeValue, of_query, of_copy, links, KeepsPredicate, AreJoined, HasNoClash};
ghost use Rattle.ucq_classes.specs.Numbers.{width_of, NumbersQuery};
ghost use Rattle.ucq_classes.specs.Classes.{IsClassed};
ghost use Rattle.ucq_unify.specs.inner.Growing.{pairs_of};
ghost use Rattle.ucq_unify.specs.inner.Sides.{HasFlags, HasLowAnswers, AreNumbered};
ghost use Rattle.ucq_unify.specs.inner.Classes.{place_links, IsFlaggedPrivate, MeetsConstant, MeetsAnswer, MeetsOther, IsSpoilt, HasSpoilt, CallsFor, IsCalledAt, KeepsEach};

use crate::sides::Sides;
use ucq_classes::{Classes, Node};
use ucq_terms::{Query, Term};

// Joins the terms of the atom at the place and of the head's atom that the choice has for it.
fn link_place(classes: &mut Classes, sides: &Sides, place: usize, head: Option<u32>)
    requires sides { AreNumbered sides.now.query.now sides.now.rule.now sides.now.existential.items
        classes.old.numbers }
    requires keeps { (h : ℕ) →
        head ≡ Some h →
        KeepsPredicate sides.now.query.now sides.now.rule.now (place, h) }
    ensures numbers { classes.new.numbers ≡ classes.old.numbers }
    ensures linked { (links : List (NodeValue × NodeValue)) →
        IsClassed links classes.old →
        IsClassed (links ++ place_links sides.now.query.now sides.now.rule.now place head)
        classes.new }
{
    if let Some(head) = head {
        let atoms = sides.query.atoms();
        let heads = sides.rule.heads();
        classes.link_atoms(&atoms[place], 0, &heads[head as usize]);
    }
}

/// Makes the classes those of the terms that the choice's pairs join.
pub fn link_choice(classes: &mut Classes, sides: &Sides, choice: &[Option<u32>])
    requires sides { AreNumbered sides.now.query.now sides.now.rule.now sides.now.existential.items
        classes.old.numbers }
    requires keeps { KeepsEach sides.now.query.now sides.now.rule.now choice.now }
    ensures numbers { classes.new.numbers ≡ classes.old.numbers }
    ensures linked { IsClassed
        (links sides.now.query.now 0 sides.now.rule.now (pairs_of choice.now)) classes.new }
{
    classes.clear();
    for place in 0..choice.len() {
        link_place(classes, sides, place, choice[place]);
    }
}

// Whether the variable of the rule is joined to a constant.
fn meets_constant(classes: &Classes, variable: u32) -> bool
    requires { variable < width_of classes.now.numbers 0 }
    ensures { (links : List (NodeValue × NodeValue)) →
        IsClassed links classes.now →
        (IsTrue result ↔ MeetsConstant classes.now.numbers links variable) }
{
    let constants = classes.numbering().constants();
    for k in 0..constants.len() {
        if classes.same(Node::OfCopy(0, variable), Node::Constant(constants[k])) {
            return true;
        }
    }
    false
}

// Whether the variable of the rule is joined to a variable among the answers.
fn meets_answer(classes: &Classes, query: &Query, variable: u32) -> bool
    requires below { variable < width_of classes.now.numbers 0 }
    requires answers { HasLowAnswers query.now classes.now.numbers }
    ensures { (links : List (NodeValue × NodeValue)) →
        IsClassed links classes.now →
        (IsTrue result ↔ MeetsAnswer query.now links variable) }
{
    for term in query.answers() {
        if is_joined(classes, variable, *term) {
            return true;
        }
    }
    false
}

// Whether the term is a variable of the query that is joined to that of the rule.
fn is_joined(classes: &Classes, variable: u32, term: Term) -> bool
    requires below { variable < width_of classes.now.numbers 0 }
    requires term { (u : ℕ) → term ≡ Variable u → u < classes.now.numbers.variables }
    ensures joined { result ≡ true →
        (u : ℕ)
        × (term ≡ Variable u)
        × ((links : List (NodeValue × NodeValue)) →
        IsClassed links classes.now →
        AreJoined links (of_copy 0 variable) (of_query u)) }
    ensures apart { result ≡ false →
        (u : ℕ) →
        term ≡ Variable u →
        (links : List (NodeValue × NodeValue)) →
        IsClassed links classes.now →
        AreJoined links (of_copy 0 variable) (of_query u) →
        ⊥ }
{
    match term {
        Term::Constant(_) => false,
        Term::Variable(other) => classes.same(Node::OfCopy(0, variable), Node::OfQuery(other)),
    }
}

// Whether the variable of the rule is joined to another one.
fn meets_other(classes: &Classes, variable: u32) -> bool
    requires { variable < width_of classes.now.numbers 0 }
    ensures { (links : List (NodeValue × NodeValue)) →
        IsClassed links classes.now →
        (IsTrue result ↔ MeetsOther classes.now.numbers links variable) }
{
    for other in 0..classes.numbering().width(0) {
        if other != variable && classes.same(Node::OfCopy(0, variable), Node::OfCopy(0, other)) {
            return true;
        }
    }
    false
}

// Whether an existential variable is joined to a constant, an answer variable or another variable of the rule.
fn has_spoilt(classes: &Classes, sides: &Sides) -> bool
    requires { AreNumbered sides.now.query.now sides.now.rule.now sides.now.existential.items
        classes.now.numbers }
    ensures { (links : List (NodeValue × NodeValue)) →
        IsClassed links classes.now →
        (IsTrue result
        ↔ HasSpoilt sides.now.query.now classes.now.numbers sides.now.existential.items links) }
{
    for variable in 0..classes.numbering().width(0) {
        if sides.existential[variable as usize] && is_spoilt(classes, sides.query, variable) {
            return true;
        }
    }
    false
}

// The same of this variable.
fn is_spoilt(classes: &Classes, query: &Query, variable: u32) -> bool
    requires below { variable < width_of classes.now.numbers 0 }
    requires answers { HasLowAnswers query.now classes.now.numbers }
    ensures { (links : List (NodeValue × NodeValue)) →
        IsClassed links classes.now →
        (IsTrue result ↔ IsSpoilt query.now classes.now.numbers links variable) }
{
    if meets_constant(classes, variable) {
        return true;
    }
    meets_answer(classes, query, variable) || meets_other(classes, variable)
}

// Whether the variable of the query is joined to an existential variable.
fn is_private(classes: &Classes, sides: &Sides, variable: u32) -> bool
    requires sides { AreNumbered sides.now.query.now sides.now.rule.now sides.now.existential.items
        classes.now.numbers }
    requires below { variable < classes.now.numbers.variables }
    ensures { (links : List (NodeValue × NodeValue)) →
        IsClassed links classes.now →
        (IsTrue result ↔ IsFlaggedPrivate sides.now.existential.items links variable) }
{
    for other in 0..classes.numbering().width(0) {
        if sides.existential[other as usize]
            && classes.same(Node::OfCopy(0, other), Node::OfQuery(variable))
        {
            return true;
        }
    }
    false
}

// Whether one of the terms is a variable that is joined to an existential one.
fn calls_for(classes: &Classes, sides: &Sides, terms: &[Term]) -> bool
    requires sides { AreNumbered sides.now.query.now sides.now.rule.now sides.now.existential.items
        classes.now.numbers }
    requires below { (v : ℕ) → Contains terms.now (Variable v) → v < classes.now.numbers.variables }
    ensures { (links : List (NodeValue × NodeValue)) →
        IsClassed links classes.now →
        (IsTrue result ↔ CallsFor sides.now.existential.items links terms.now) }
{
    for term in terms {
        if let Term::Variable(variable) = *term {
            if is_private(classes, sides, variable) {
                return true;
            }
        }
    }
    false
}

/// The first place without a head whose atom has such a variable.
pub fn first_called(classes: &Classes, sides: &Sides, choice: &[Option<u32>]) -> Option<u32>
    requires sides { AreNumbered sides.now.query.now sides.now.rule.now sides.now.existential.items
        classes.now.numbers }
    requires length { length choice.now ≡ length sides.now.query.now.atoms }
    ensures some { (links : List (NodeValue × NodeValue)) →
        IsClassed links classes.now →
        IfSome result (λ place.
        IsCalledAt sides.now.existential.items links sides.now.query.now choice.now place) }
    ensures none { (links : List (NodeValue × NodeValue)) →
        IsClassed links classes.now →
        result ≡ None →
        (place : ℕ) →
        IsCalledAt sides.now.existential.items links sides.now.query.now choice.now place →
        ⊥ }
{
    let atoms = sides.query.atoms();
    for place in 0..choice.len() {
        if choice[place].is_none() && calls_for(classes, sides, atoms[place].terms()) {
            return Some(place as u32);
        }
    }
    None
}

/// Whether the classes join terms with which there is no piece-unifier.
pub fn has_clash(classes: &Classes, sides: &Sides) -> bool
    requires { AreNumbered sides.now.query.now sides.now.rule.now sides.now.existential.items
        classes.now.numbers }
    ensures clash { (links : List (NodeValue × NodeValue)) →
        IsClassed links classes.now →
        result ≡ true →
        (HasNoClash links → ⊥)
        ⊎ HasSpoilt sides.now.query.now classes.now.numbers sides.now.existential.items links }
    ensures none { (links : List (NodeValue × NodeValue)) →
        IsClassed links classes.now →
        result ≡ false →
        HasNoClash links
        × (HasSpoilt sides.now.query.now classes.now.numbers sides.now.existential.items links →
        ⊥) }
{
    classes.has_clash() || has_spoilt(classes, sides)
}
