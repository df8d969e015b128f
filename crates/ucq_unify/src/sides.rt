//! A query and a rule.
ghost use Rattle.std.specs.Prelude.{IfOk};
ghost use Rattle.ucq_unify.specs.inner.Sides.{AreFlags, AreNumbered};

use std::alloc::Global;
use ucq_classes::{Numbering, variable_bound};
use ucq_terms::{NoMemory, Query, Rule};

/// A query and a rule, whose pieces are looked for.
#[derive(Drop)]
pub struct Sides<'s> {
    pub query: &'s Query,
    pub rule: &'s Rule,
    /// Of each variable of the rule's head, whether it is existential.
    pub existential: Vec<bool>,
}

/// Numbers for the terms of the query and of the rule's head, as copy 0.
pub fn numbering(alloc: Global, sides: &Sides) -> Result<Numbering, NoMemory>
    requires { AreFlags sides.now.rule.now sides.now.existential.items }
    ensures { IfOk result (λ n.
        AreNumbered sides.now.query.now sides.now.rule.now sides.now.existential.items n) }
{
    let mut numbering = Numbering::new(alloc, sides.query)?;
    numbering.note_heads(sides.rule)?;
    numbering.add_copy(sides.existential.len() as u32)?;
    Ok(numbering)
}

/// Of each variable of the rule's head, whether it is existential.
pub fn existential_flags(alloc: Global, rule: &Rule) -> Result<Vec<bool>, NoMemory>
    ensures { IfOk result (λ flags. AreFlags rule.now flags.items) }
{
    let bound = variable_bound(rule.heads());
    let mut flags = Vec::with_capacity(alloc, bound as usize)?;
    for variable in 0..bound {
        flags.push(rule.is_existential(variable))?;
    }
    Ok(flags)
}
