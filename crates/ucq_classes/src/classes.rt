//! Classes.
ghost use Rattle.std.specs.Prelude.{◌≡◌, ◌<◌, ◌++◌, ◌↔◌, [], ◌∷◌, ℕ, List, length, IfOk, IsTrue, true, false};
ghost use Rattle.ucq_partition.specs.Partition.{label_of};
ghost use Rattle.ucq_terms.specs.Unifier.{Node as NodeValue, AreJoined, HasNoClash};
ghost use Rattle.ucq_classes.specs.Numbers.{size, IsNumbered, IsNumbering, NumbersAtom, NumbersHead, node_of};
ghost use Rattle.ucq_classes.specs.Classes.{IsLabelled, IsClassed, atom_links};

use crate::nodes::{term_of_copy, term_of_query};
use crate::{Node, Numbering};
use std::alloc::Global;
use std::marker::Model;
use ucq_partition::Partition;
use ucq_terms::{Atom, NoMemory};

/// The terms of a numbering in classes. Contracts say by `IsClassed` which links made the classes.
#[derive(Drop)]
pub struct Classes<'n> {
    numbering: &'n Numbering,
    partition: Partition,
}

impl<'n> Model for Classes<'n> {
    ghost use Rattle.ucq_classes.specs.Classes.{Labels, IsLabelled};

    ghost Value = { Labels };

    ghost view = { λ c. record { numbers = c.numbering.now; labels = c.partition } };

    ghost invariant = { λ c.
        IsLabelled (record { numbers = c.numbering.now; labels = c.partition }) };
}

impl<'n> Classes<'n> {
    /// Each term alone.
    pub fn new(alloc: Global, numbering: &'n Numbering) -> Result<Classes<'n>, NoMemory>
        ensures numbers { IfOk result (λ c. c.numbers ≡ numbering.now) }
        ensures alone { IfOk result (λ c. IsClassed [] c) }
    {
        match Partition::new(alloc, numbering.size()) {
            Ok(partition) => Ok(Classes {
                numbering,
                partition,
            }),
            Err(_) => Err(NoMemory),
        }
    }

    /// The numbering.
    pub fn numbering(&self) -> &Numbering
        ensures numbers { result.now ≡ self.now.numbers }
        ensures whole { IsLabelled self.now }
    {
        self.numbering
    }

    /// Each term alone again.
    pub fn clear(&mut self)
        ensures numbers { self.new.numbers ≡ self.old.numbers }
        ensures alone { IsClassed [] self.new }
    {
        self.partition.clear();
    }

    /// Makes one class of those of the two terms. Takes the time of the size, and no memory.
    pub fn link(&mut self, x: Node, y: Node)
        requires x { IsNumbered self.old.numbers (node_of x) }
        requires y { IsNumbered self.old.numbers (node_of y) }
        ensures numbers { self.new.numbers ≡ self.old.numbers }
        ensures linked { (links : List (NodeValue × NodeValue)) →
            IsClassed links self.old →
            IsClassed (links ++ (node_of x, node_of y) ∷ []) self.new }
    {
        let a = self.numbering.number(x);
        let b = self.numbering.number(y);
        self.partition.join(a, b);
    }

    /// Links the terms that stand at one place of the two atoms, the second one of the copy.
    pub fn link_atoms(&mut self, atom: &Atom, copy: u32, head: &Atom)
        requires atom { NumbersAtom self.old.numbers atom.now }
        requires head { NumbersHead self.old.numbers copy head.now }
        requires arity { length atom.now.terms ≡ length head.now.terms }
        ensures numbers { self.new.numbers ≡ self.old.numbers }
        ensures linked { (links : List (NodeValue × NodeValue)) →
            IsClassed links self.old →
            IsClassed (links ++ atom_links atom.now copy head.now) self.new }
    {
        let terms = atom.terms();
        let others = head.terms();
        for i in 0..terms.len() {
            self.link(term_of_query(terms[i]), term_of_copy(copy, others[i]));
        }
    }

    /// Whether a chain of links joins the two terms.
    pub fn same(&self, x: Node, y: Node) -> bool
        requires x { IsNumbered self.now.numbers (node_of x) }
        requires y { IsNumbered self.now.numbers (node_of y) }
        ensures { (links : List (NodeValue × NodeValue)) →
            IsClassed links self.now →
            (IsTrue result ↔ AreJoined links (node_of x) (node_of y)) }
    {
        let a = self.numbering.number(x);
        let b = self.numbering.number(y);
        self.partition.same(a, b)
    }

    /// The label of the number, which is the least one of its class.
    pub fn label(&self, number: u32) -> u32
        requires { number < size self.now.numbers }
        ensures { result ≡ label_of self.now.labels number }
    {
        self.partition.label(number)
    }

    /// Whether two constants are in one class.
    pub fn has_clash(&self) -> bool
        ensures clash { result ≡ true →
            (links : List (NodeValue × NodeValue)) →
            IsClassed links self.now →
            HasNoClash links →
            ⊥ }
        ensures none { result ≡ false →
            (links : List (NodeValue × NodeValue)) →
            IsClassed links self.now →
            HasNoClash links }
    {
        for place in 0..self.numbering.constants().len() as u32 {
            if self.label(place) != place {
                return true;
            }
        }
        false
    }
}
