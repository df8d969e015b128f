//! The terms of a query and of copies of one rule, with numbers.
ghost use Rattle.std.specs.Prelude.{◌≡◌, ◌<◌, ◌≤◌, ◌+◌, ◌*◌, ◌^◌, length, IfOk, OnOk};
ghost use Rattle.ucq_classes.specs.Numbers.{Numbers};
ghost use Rattle.ucq_join.specs.inner.Copies.{IsWidthOf, IsReadyFor, HasCopyWidth};

use std::alloc::Global;
use ucq_classes::{Numbering, variable_bound};
use ucq_terms::{NoMemory, Query, Rule};

/// A number above the variables of the rule.
pub fn rule_width(rule: &Rule) -> u32
    ensures { IsWidthOf rule.now result }
{
    variable_bound(rule.heads()).max(variable_bound(rule.body()))
}

/// Numbers for the terms of the query and for the constants of the rule's head.
pub fn numbering(alloc: Global, query: &Query, rule: &Rule) -> Result<Numbering, NoMemory>
    ensures { IfOk result (λ n. IsReadyFor query.now rule.now n) }
{
    let mut numbering = Numbering::new(alloc, query)?;
    numbering.note_heads(rule)?;
    Ok(numbering)
}

/// Makes so many copies of this width, and no others. After want of memory there are some.
pub fn set_copies(numbering: &mut Numbering, count: u32, width: u32) -> Result<(), NoMemory>
    requires { length numbering.old.constants + numbering.old.variables + count * width < 2 ^ 32 }
    ensures rest { numbering.new ≡ record numbering.old { widths = numbering.new.widths } }
    ensures count { OnOk result (length numbering.new.widths ≡ count) }
    ensures width { OnOk result (HasCopyWidth numbering.new width) }
{
    numbering.clear_copies();
    for _copy in 0..count {
        numbering.add_copy(width)?;
    }
    Ok(())
}
