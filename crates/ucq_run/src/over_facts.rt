//! The facts of an input.
ghost use Rattle.std.specs.Prelude.{◌≢◌, ◌≤◌, ◌^◌, IfOk, vec_len};
ghost use Rattle.ucq_terms.specs.declared.TheConstants.{FACTS};
ghost use Rattle.ucq_run.specs.declared.form.Form.TheVariants.{Queries};
ghost use Rattle.ucq_run.specs.Finished.{AreFactsOf};

use crate::form::Form;
use std::alloc::Global;
use ucq_facts::Facts;
use ucq_terms::{Atom, NoMemory};

/// The facts of these atoms, each once, with their index.
fn facts_of(alloc: Global, atoms: Vec<Atom>) -> Result<Facts, NoMemory>
    requires { vec_len atoms ≤ FACTS }
    ensures { IfOk result (λ facts. AreFactsOf atoms.items facts) }
{
    let mut facts = Facts::new(alloc)?;
    for atom in atoms {
        let _ = facts.add(atom)?;
    }
    Ok(facts)
}

/// The same, where the form has answers, and else none.
pub fn facts_in_form(alloc: Global, atoms: Vec<Atom>, form: Form) -> Result<Facts, NoMemory>
    requires { vec_len atoms ≤ FACTS }
    ensures { IfOk result (λ facts. form ≢ Queries → AreFactsOf atoms.items facts) }
{
    match form {
        Form::Queries => Facts::new(alloc),
        Form::Answers | Form::Counts => facts_of(alloc, atoms),
    }
}
