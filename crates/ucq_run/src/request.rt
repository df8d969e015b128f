//! From the words to what is asked.
ghost use Rattle.std.specs.Prelude.{◌≤◌, map, string_bytes};
ghost use Rattle.ucq_run.specs.Inputs.{call_of};
ghost use Rattle.ucq_run.specs.inner.Request.{IsPrepared};

use crate::form::{Form, form_of};
use crate::inputs::input_of;
use crate::outcome::Outcome;
use crate::over_facts::facts_in_form;
use std::alloc::Global;
use ucq_facts::Facts;
use ucq_outside::Shelf;
use ucq_reader::{Asked, Input};
use ucq_terms::{Names, Rule};
use ucq_words::{Mode, WordsFault, settings};

/// What all queries of an input share: its names and facts, and how the queries are solved and printed.
#[derive(Drop)]
pub struct Shared {
    pub names: Names,
    /// Where the form has answers the facts, each once, with their index.
    pub facts: Facts,
    pub budget: u32,
    pub workers: u32,
    pub form: Form,
    pub mode: Mode,
}

/// What is asked: the queries of an input, under its rules.
#[derive(Drop)]
pub struct Request {
    pub shared: Shared,
    pub rules: Vec<Rule>,
    pub queries: Vec<Asked>,
}

/// Reads the words and the files that they name, or makes their input. Without an input the outcome says why.
pub fn prepare<H: Shelf>(alloc: Global, words: &[String], shelf: &mut H) -> Result<Request, Outcome>
    ensures read { IsPrepared
        (call_of
        (map string_bytes words.now)
        (H.held shelf.old)
        (H.faults shelf.old)
        (H.faults shelf.new))
        result }
    ensures later { H.faults shelf.old ≤ H.faults shelf.new }
{
    let settings = match settings(alloc, words) {
        Ok(settings) => settings,
        Err(WordsFault::BadWords) => return Err(Outcome::BadWords),
        Err(WordsFault::Memory) => return Err(Outcome::NoMemory),
    };
    let form = form_of(&settings);
    match input_of(alloc, shelf, &settings.job) {
        Ok(
            Input {
                names,
                rules,
                queries,
                facts,
            },
        ) => {
            let shared = Shared {
                names,
                facts: facts_in_form(alloc, facts, form)?,
                budget: settings.budget,
                workers: settings.workers,
                form,
                mode: settings.mode,
            };
            Ok(Request {
                shared,
                rules,
                queries,
            })
        }
        Err(outcome) => Err(outcome),
    }
}
