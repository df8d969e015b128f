//! Answers with their texts.
ghost use Rattle.std.specs.Prelude.{◌≡◌, ◌<◌, ◌^◌, ℕ, List, [], length, slice_get, IfOk, Some};
ghost use Rattle.ucq_eval.specs.Order.{HaveTexts, tuples_beside};
ghost use Rattle.ucq_eval.specs.Tuples.{tuple_text};

use crate::order::Printed;
use crate::texts::Tuple;
use std::alloc::Global;
use std::marker::Model;
use ucq_terms::{Names, NoMemory};

/// Tuples of constants, each with its text over the names, which was made once.
#[derive(Drop)]
pub struct Answers<'n> {
    names: &'n Names,
    all: Vec<Printed>,
}

impl<'n> Model for Answers<'n> {
    ghost use Rattle.ucq_eval.specs.Answers.{AnswersValue};
    ghost use Rattle.ucq_eval.specs.Order.{HaveTexts, tuples_beside};

    ghost Value = { AnswersValue };

    ghost view = { λ a. record { names = a.names.now; tuples = tuples_beside a.all.items } };

    ghost invariant = { λ a. HaveTexts a.names.now a.all.items };
}

impl<'n> Answers<'n> {
    /// No answers.
    pub fn none(alloc: Global, names: &'n Names) -> Answers<'n>
        ensures { result ≡ record { names = names.now; tuples = [] } }
    {
        Answers {
            names,
            all: Vec::new(alloc),
        }
    }

    /// These tuples, which have their texts.
    pub(crate) fn of(names: &'n Names, all: Vec<Printed>) -> Answers<'n>
        requires { HaveTexts names.now all.items }
        ensures { result ≡ record { names = names.now; tuples = tuples_beside all.items } }
    {
        Answers { names, all }
    }

    /// How many there are.
    pub fn len(&self) -> usize
        ensures len { result ≡ length self.now.tuples }
        ensures few { result < 2 ^ 63 }
    {
        self.all.len()
    }

    /// The numbers of the names of the tuple at a place.
    pub fn tuple(&self, place: usize) -> &[u32]
        requires { place < length self.now.tuples }
        ensures { slice_get self.now.tuples place ≡ Some result.now }
    {
        self.all[place].names.as_slice()
    }

    /// The text of the tuple at a place.
    pub fn text(&self, place: usize) -> &[u8]
        requires { place < length self.now.tuples }
        ensures { (tuple : List ℕ) →
            slice_get self.now.tuples place ≡ Some tuple →
            result.now ≡ tuple_text self.now.names tuple }
    {
        self.all[place].text.as_slice()
    }

    /// The tuples without their texts. The only error is want of memory.
    pub(crate) fn into_tuples(self, alloc: Global) -> Result<Vec<Tuple>, NoMemory>
        ensures { IfOk result (λ tuples. tuples.items ≡ self.entry.tuples) }
    {
        tuples_of(alloc, self.all)
    }
}

/// The tuples without their texts.
fn tuples_of(alloc: Global, all: Vec<Printed>) -> Result<Vec<Tuple>, NoMemory>
    ensures { IfOk result (λ tuples. tuples.items ≡ tuples_beside all.items) }
{
    let mut tuples = Vec::with_capacity(alloc, all.len())?;
    for tuple in all {
        tuples.push(Tuple::new(tuple.names))?;
    }
    Ok(tuples)
}
