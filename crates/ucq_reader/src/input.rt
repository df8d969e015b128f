//! The input that files stand for.
ghost use Rattle.std.specs.Prelude.{◌≡◌, IfOk};

use std::alloc::{AllocError, Global};
use std::marker::Model;
use ucq_terms::{Atom, Names, Query, Rule};

/// What files stand for: the texts of names with their numbers, the rules and the queries in the order of the files, and
/// the atoms of the facts. A variable of a fact is an unknown value; no two fact statements share one.
#[derive(Drop)]
pub struct Input {
    pub names: Names,
    pub rules: Vec<Rule>,
    pub queries: Vec<Asked>,
    pub facts: Vec<Atom>,
}

/// A query, and the label that stands before it.
#[derive(Drop)]
pub struct Asked {
    pub label: Option<Label>,
    pub query: Query,
}

/// A label as it stands in the text, with its brackets.
#[derive(Drop)]
pub struct Label {
    bytes: Vec<u8>,
}

impl Model for Label {
    ghost use Rattle.std.specs.Prelude.{ℕ, List};

    ghost Value = { List ℕ };

    ghost view = { λ l. l.bytes.items };
}

impl Label {
    /// The label with this text.
    pub(crate) fn new(alloc: Global, text: &[u8]) -> Result<Label, AllocError>
        ensures { IfOk result (λ label. label ≡ text.now) }
    {
        Ok(Label {
            bytes: Vec::from_slice(alloc, text)?,
        })
    }

    /// Its bytes.
    pub fn text(&self) -> &[u8]
        ensures { result.now ≡ self.now }
    {
        self.bytes.as_slice()
    }
}
