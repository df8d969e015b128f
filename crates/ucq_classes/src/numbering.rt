//! Numberings.
ghost use Rattle.std.specs.Prelude.{◌≡◌, ◌≢◌, ◌<◌, ◌≤◌, ◌+◌, ◌*◌, ◌^◌, ◌++◌, [], ◌∷◌, ℕ, length, vec_len, sum, take, IfOk, OnOk, OnErr, Contains, nat_eq};
ghost use Rattle.ucq_terms.specs.declared.TheConstants.{VARIABLES};
ghost use Rattle.std.specs.List.{position_or_len};
ghost use Rattle.ucq_terms.specs.declared.Term.TheVariants.{Constant};
ghost use Rattle.ucq_terms.specs.Syntax.{OccursIn};
ghost use Rattle.ucq_terms.specs.Query.{IsStored};
ghost use Rattle.ucq_classes.specs.Numbers.{Numbers, first, size, number, width_of, IsNumbered, IsNumbering, NumbersQuery, node_of};

use crate::Node;
use crate::bounds::variable_bound;
use crate::constants::{note_atoms, place_of};
use std::alloc::Global;
use std::marker::Model;
use ucq_terms::{NoMemory, Query, Rule};

/// Numbers for the terms of a query and of copies of rules: first the constants, each once, then the query's variables, then
/// those of each copy. The copies may be of different rules.
#[derive(Drop)]
pub struct Numbering {
    constants: Vec<u32>,
    variables: u32,
    widths: Vec<u32>,
}

impl Model for Numbering {
    ghost use Rattle.ucq_classes.specs.Numbers.{Numbers, IsNumbering};

    ghost Value = { Numbers };

    ghost view = { λ n.
        record {
          constants = n.constants.items;
          variables = n.variables;
          widths = n.widths.items;
        } };

    ghost invariant = { λ n.
        IsNumbering (record {
          constants = n.constants.items;
          variables = n.variables;
          widths = n.widths.items;
        }) };
}

impl Numbering {
    /// The terms of the query, and no copies.
    pub fn new(alloc: Global, query: &Query) -> Result<Numbering, NoMemory>
        ensures query { IfOk result (λ n. NumbersQuery n query.now) }
        ensures stored { IsStored query.now }
        ensures no_copies { IfOk result (λ n. n.widths ≡ []) }
        ensures few_constants { IfOk result (λ n. length n.constants ≤ 2048) }
        ensures few_variables { IfOk result (λ n. n.variables ≤ VARIABLES) }
    {
        let variables = variable_bound(query.atoms());
        let mut constants = Vec::new(alloc);
        note_atoms(&mut constants, query.atoms())?;
        Ok(Numbering {
            constants,
            variables,
            widths: Vec::new(alloc),
        })
    }

    /// Numbers the constants of the rule's head too, and moves the variables' numbers on. After want of memory some are there.
    pub fn note_heads(&mut self, rule: &Rule) -> Result<(), NoMemory>
        requires { size self.old + 512 < 2 ^ 32 }
        ensures kept { (c : ℕ) → Contains self.old.constants c → Contains self.new.constants c }
        ensures noted { OnOk
            result
            ((c : ℕ) → OccursIn rule.now.heads (Constant c) → Contains self.new.constants c) }
        ensures few { length self.new.constants ≤ length self.old.constants + 512 }
        ensures rest { self.new ≡ record self.old { constants = self.new.constants } }
    {
        note_atoms(&mut self.constants, rule.heads())?;
        Ok(())
    }

    /// One more copy, of a rule whose variables are below the width.
    pub fn add_copy(&mut self, width: u32) -> Result<(), NoMemory>
        requires { size self.old + width < 2 ^ 32 }
        ensures added { OnOk
            result
            (self.new ≡ record self.old { widths = self.old.widths ++ width ∷ [] }) }
        ensures kept { OnErr result (self.new ≡ self.old) }
    {
        self.widths.push(width)?;
        Ok(())
    }

    /// No copies again.
    pub fn clear_copies(&mut self)
        ensures { self.new ≡ record self.old { widths = [] } }
    {
        self.widths.clear();
    }

    /// The constants by their numbers, each once.
    pub fn constants(&self) -> &[u32]
        ensures constants { result.now ≡ self.now.constants }
        ensures proper { IsNumbering self.now }
    {
        self.constants.as_slice()
    }

    /// A bound above the query's variables.
    pub fn variables(&self) -> u32
        ensures { result ≡ self.now.variables }
    {
        self.variables
    }

    /// A bound above the variables of the copy.
    pub fn width(&self, copy: u32) -> u32
        requires { copy < length self.now.widths }
        ensures { result ≡ width_of self.now copy }
    {
        self.widths[copy as usize]
    }

    /// The first number of the copy.
    pub fn first(&self, copy: u32) -> u32
        requires { copy ≤ length self.now.widths }
        ensures { result ≡ first self.now copy }
    {
        self.constants.len() as u32 + self.variables + total(self.widths.as_slice(), copy as usize)
    }

    /// How many numbers there are.
    pub fn size(&self) -> u32
        ensures value { result ≡ size self.now }
        ensures proper { IsNumbering self.now }
    {
        self.constants.len() as u32
            + self.variables
            + total(self.widths.as_slice(), self.widths.len())
    }

    /// The number of the term.
    pub fn number(&self, node: Node) -> u32
        requires { IsNumbered self.now (node_of node) }
        ensures { result ≡ number self.now (node_of node) }
    {
        match node {
            Node::Constant(constant) => place_of(self.constants.as_slice(), constant),
            Node::OfQuery(variable) => self.constants.len() as u32 + variable,
            Node::OfCopy(copy, variable) => self.first(copy) + variable,
        }
    }
}

// The sum of the first numbers.
fn total(numbers: &[u32], count: usize) -> u32
    requires count { count ≤ length numbers.now }
    requires small { sum (take count numbers.now) < 2 ^ 32 }
    ensures { result ≡ sum (take count numbers.now) }
{
    let mut total = 0;
    for i in 0..count {
        total += numbers[i];
    }
    total
}
