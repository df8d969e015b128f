//! How a finished union is printed.
ghost use Rattle.ucq_run.specs.Inputs.{form_of};
ghost use Rattle.ucq_words.specs.Settings.{settings_value};
ghost use Rattle.std.specs.Prelude.{◌≡◌};

use ucq_words::{Job, Settings};

/// How a finished union is printed.
#[derive(Clone, Copy, Debug, PartialEq, Eq)]
pub enum Form {
    /// Its queries.
    Queries,
    /// Its queries, and its answers over the facts.
    Answers,
    /// How many queries, atoms and answers there are.
    Counts,
}

/// The form that the settings ask for.
pub fn form_of(settings: &Settings) -> Form
    ensures { result ≡ form_of (settings_value settings.now) }
{
    match settings.job {
        Job::Make(_) => Form::Counts,
        Job::Files(_) => {
            if settings.answers {
                Form::Answers
            } else {
                Form::Queries
            }
        }
    }
}
