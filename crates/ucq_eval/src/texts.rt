//! Tuples of constants and their texts.
ghost use Rattle.std.specs.Prelude.{◌≡◌, ◌++◌, IfOk, OnOk, codes};
ghost use Rattle.std.specs.List.{flat_map};
ghost use Rattle.ucq_terms.specs.Names.{name_text};
ghost use Rattle.ucq_eval.specs.Tuples.{joined, tuple_text};

use std::alloc::Global;
use std::marker::Model;
use ucq_terms::{Names, NoMemory};

/// A tuple of constants, by the numbers of their names.
#[derive(Drop)]
pub struct Tuple {
    names: Vec<u32>,
}

impl Model for Tuple {
    ghost use Rattle.std.specs.Prelude.{ℕ, List};

    ghost Value = { List ℕ };

    ghost view = { λ t. t.names.items };
}

impl Tuple {
    /// The tuple of the constants with these numbers.
    pub fn new(names: Vec<u32>) -> Tuple
        ensures { result ≡ names.items }
    {
        Tuple { names }
    }

    /// The numbers of its constants' names, in order.
    pub fn names(&self) -> &[u32]
        ensures { result.now ≡ self.now }
    {
        self.names.as_slice()
    }
}

/// A comma and the text of a name, for each.
fn push_more_names(text: &mut Vec<u8>, names: &Names, numbers: &[u32]) -> Result<(), NoMemory>
    ensures { OnOk
        result
        (text.new.items ≡
        text.old.items ++ flat_map (λ n. codes "," ++ name_text names.now n) numbers.now) }
{
    for number in numbers {
        text.push(b',')?;
        text.extend_from_slice(names.text_or_empty(*number))?;
    }
    Ok(())
}

/// The texts of names, with a comma between each two.
fn push_joined_names(text: &mut Vec<u8>, names: &Names, numbers: &[u32]) -> Result<(), NoMemory>
    ensures { OnOk
        result
        (text.new.items ≡
        text.old.items ++ joined (codes ",") (name_text names.now) numbers.now) }
{
    match numbers {
        [] => Ok(()),
        [first, rest @ ..] => {
            text.extend_from_slice(names.text_or_empty(*first))?;
            push_more_names(text, names, rest)
        }
    }
}

/// The text of the constants with these numbers: their texts between parentheses, with commas. A constant that the names
/// don't hold is printed as nothing. The only error is want of memory.
pub(crate) fn numbers_text(
    alloc: Global,
    names: &Names,
    numbers: &[u32],
) -> Result<Vec<u8>, NoMemory>
    ensures { IfOk result (λ text. text.items ≡ tuple_text names.now numbers.now) }
{
    let mut text = Vec::new(alloc);
    text.push(b'(')?;
    push_joined_names(&mut text, names, numbers)?;
    text.push(b')')?;
    Ok(text)
}

/// The text of a tuple: its constants' texts between parentheses, with commas. A constant that the names don't hold is
/// printed as nothing. The only error is want of memory.
pub fn tuple_text(alloc: Global, names: &Names, tuple: &Tuple) -> Result<Vec<u8>, NoMemory>
    ensures { IfOk result (λ text. text.items ≡ tuple_text names.now tuple.now) }
{
    numbers_text(alloc, names, tuple.names())
}
