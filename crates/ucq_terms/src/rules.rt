//! Existential rules.
ghost use Rattle.std.specs.Prelude.{◌≡◌, ◌<◌, ◌≤◌, ◌↔◌, length, vec_len, IfOk, OnOk, IsTrue};
ghost use Rattle.ucq_terms.specs.Chase.{IsExistential, IsFrontier};
ghost use Rattle.ucq_terms.specs.Equality.{rule_eq, IsEquivalence-rule_eq, IsPartialEquivalence-rule_eq};
ghost use Rattle.ucq_terms.specs.Numbering.{numbered_rule};
ghost use Rattle.ucq_terms.specs.Rule.{IsNumberedRule};

use crate::atom_lists::{occurs, term_count};
use crate::variables::number_atoms;
use crate::{Atom, NoMemory, Term};
use indexmap::IndexSet;
use std::alloc::Global;
use std::marker::Model;

/// An existential rule: 1 to 32 atoms of a head, and 1 to 32 of a body. Its variables are numbered from 0 by first
/// occurrence, those of the head first, so they are below 1,024.
#[derive(Drop)]
pub struct Rule {
    heads: Vec<Atom>,
    body: Vec<Atom>,
}

impl Model for Rule {
    ghost use Rattle.ucq_terms.specs.Syntax.{Rule as RuleValue};

    ghost Value = { RuleValue };

    ghost use Rattle.ucq_terms.specs.Rule.{IsKeptRule};

    ghost view = { λ r. record { heads = r.heads.items; body = r.body.items } };

    ghost invariant = { λ r. IsKeptRule (record { heads = r.heads.items; body = r.body.items }) };
}

impl Rule {
    ghost use Rattle.ucq_terms.specs.Rule.{IsKeptRule};

    /// The rule of this head and this body, with its variables numbered from 0 by first occurrence, heads first.
    pub fn new(alloc: Global, mut heads: Vec<Atom>, mut body: Vec<Atom>) -> Result<Rule, NoMemory>
        requires some_heads { 0 < vec_len heads }
        requires few_heads { vec_len heads ≤ 32 }
        requires some_body { 0 < vec_len body }
        requires few_body { vec_len body ≤ 32 }
        ensures { IfOk result (λ r.
            r ≡ numbered_rule (record { heads = heads.items; body = body.items })) }
    {
        number(alloc, heads.as_mut_slice(), body.as_mut_slice())?;
        Ok(Rule { heads, body })
    }

    /// The atoms of the head.
    pub fn heads(&self) -> &[Atom]
        ensures heads { result.now ≡ self.now.heads }
        ensures kept { IsKeptRule self.now }
    {
        self.heads.as_slice()
    }

    /// The atoms of the body.
    pub fn body(&self) -> &[Atom]
        ensures body { result.now ≡ self.now.body }
        ensures kept { IsKeptRule self.now }
    {
        self.body.as_slice()
    }

    /// Whether the variable occurs in the head alone.
    pub fn is_existential(&self, variable: u32) -> bool
        ensures { IsTrue result ↔ IsExistential self.now variable }
    {
        let term = Term::Variable(variable);
        occurs(self.heads(), term) && !occurs(self.body(), term)
    }

    /// Whether the variable occurs both in the head and in the body.
    pub fn is_frontier(&self, variable: u32) -> bool
        ensures { IsTrue result ↔ IsFrontier self.now variable }
    {
        let term = Term::Variable(variable);
        occurs(self.heads(), term) && occurs(self.body(), term)
    }
}

impl PartialEq for Rule {
    ghost eq = { rule_eq };

    ghost laws = { IsPartialEquivalence-rule_eq };

    fn eq(&self, other: &Rule) -> bool {
        self.heads == other.heads && self.body == other.body
    }
}

impl Eq for Rule {
    ghost laws = { IsEquivalence-rule_eq };
}

// Numbers the variables of the head and of the body from 0 by first occurrence, heads first.
fn number(alloc: Global, heads: &mut [Atom], body: &mut [Atom]) -> Result<(), NoMemory>
    requires few_heads { length heads.old ≤ 32 }
    requires few_body { length body.old ≤ 32 }
    ensures { OnOk
        result
        (IsNumberedRule
        (record { heads = heads.old; body = body.old })
        (record { heads = heads.new; body = body.new })) }
{
    let mut order = IndexSet::with_capacity(alloc, term_count(heads) + term_count(body))?;
    number_atoms(&mut order, heads)?;
    number_atoms(&mut order, body)?;
    Ok(())
}
