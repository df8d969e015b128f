//! A set of pieces that make an aggregate, with names for its classes.
ghost use Rattle.std.specs.Prelude.{◌≡◌, ◌<◌, ◌≤◌, ◌^◌, length, vec_len, IfOk};
ghost use Rattle.ucq_terms.specs.Unifier.{of_query, of_copy};
ghost use Rattle.ucq_join.specs.Names.{name_of};
ghost use Rattle.ucq_classes.specs.Numbers.{size};
ghost use Rattle.ucq_join.specs.inner.Copies.{HasCopyWidth};
ghost use Rattle.ucq_join.specs.inner.Naming.{name_by, AreNames, IsNamed};

use std::alloc::Global;
use std::marker::Model;
use ucq_classes::Classes;
use ucq_terms::{NoMemory, Term};

/// A set of pieces that make an aggregate, and the map of a one-step rewriting by it: a name for each class of the members'
/// links. A class with a constant is named by it, and any other by a variable that no other class has.
#[derive(Drop)]
pub struct Joined {
    members: Vec<usize>,
    names: Vec<Term>,
    constants: u32,
    variables: u32,
    width: u32,
}

impl Model for Joined {
    ghost use Rattle.std.specs.Prelude.{◌≡◌, ◌<◌, ◌+◌, ◌*◌, ◌^◌, length};
    ghost use Rattle.ucq_join.specs.Names.{Named};

    ghost Value = { Named };

    ghost view = { λ j.
        record {
          members = j.members.items;
          names = j.names.items;
          constants = j.constants;
          variables = j.variables;
          width = j.width;
        } };

    ghost invariant = { λ j.
        (length j.names.items ≡ j.constants + j.variables + length j.members.items * j.width)
        × (length j.names.items < 2 ^ 32) };
}

impl Joined {
    /// The members' places among the pieces, rising.
    pub fn members(&self) -> &[usize]
        ensures { result.now ≡ self.now.members }
    {
        self.members.as_slice()
    }

    /// What the map makes of a variable of the query. Every variable of its atoms is below the bound.
    pub fn of_query(&self, variable: u32) -> Term
        requires { variable < self.now.variables }
        ensures { result ≡ name_of self.now (of_query variable) }
    {
        self.names[(self.constants + variable) as usize]
    }

    /// What the map makes of a variable of the member's copy of the rule. Every variable of the rule is below the bound.
    pub fn of_copy(&self, member: u32, variable: u32) -> Term
        requires member { member < length self.now.members }
        requires variable { variable < self.now.width }
        ensures { result ≡ name_of self.now (of_copy member variable) }
    {
        self.names[(self.constants + self.variables + member * self.width + variable) as usize]
    }
}

/// The name of the classes with the label.
fn name(constants: &[u32], label: u32) -> Term
    ensures { result ≡ name_by constants.now label }
{
    match constants.get(label as usize) {
        Some(constant) => Term::Constant(*constant),
        None => Term::Variable(label),
    }
}

/// The names of the numbers by their classes.
fn names(alloc: Global, classes: &Classes, count: u32) -> Result<Vec<Term>, NoMemory>
    requires { count ≤ size classes.now.numbers }
    ensures { IfOk result (λ names.
        AreNames classes.now.numbers.constants classes.now.labels count names.items) }
{
    let constants = classes.numbering().constants();
    let mut names = Vec::with_capacity(alloc, count as usize)?;
    for number in 0..count {
        names.push(name(constants, classes.label(number)))?;
    }
    Ok(names)
}

/// The set of these members, each of which has a copy of the width, and whose links made the classes.
pub fn named(
    alloc: Global,
    classes: &Classes,
    members: &Vec<usize>,
    width: u32,
) -> Result<Joined, NoMemory>
    requires few { vec_len members.now ≤ 129 }
    requires width { HasCopyWidth classes.now.numbers width }
    requires within { vec_len members.now ≤ length classes.now.numbers.widths }
    ensures named { IfOk result (λ j. IsNamed classes.now members.now.items j) }
    ensures width { IfOk result (λ j. j.width ≡ width) }
{
    let numbering = classes.numbering();
    let names = names(alloc, classes, numbering.first(members.len() as u32))?;
    Ok(Joined {
        members: members.clone()?,
        names,
        constants: numbering.constants().len() as u32,
        variables: numbering.variables(),
        width,
    })
}
