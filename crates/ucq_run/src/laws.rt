//! Laws of the top calls, each the contract of a function that does nothing.
ghost use Rattle.ucq_run.specs.Laws.{FinishedRunPrintsUnions, FinishedSectionsAgree, MadeRunsAgree, PrintedAnswersAreExact, PrintedUnionIsExact};

use ucq_print::laws::{header_tells, sections_are_told, texts_differ};
use ucq_words::one_settings;

/// In what a finished run over files prints, each query has a section, which begins with the finished text of an exact union of
/// its problem. Wherever in what a run prints, finished or cut, the section of a query begins with the finished text of a list of
/// queries whose predicates and constants have names, that list is such a union. So two finished sections of one query in runs
/// over the same files print unions that are equal up to renaming, whatever their settings and workers.
pub fn finished_sections_agree()
    ensures prints { FinishedRunPrintsUnions }
    ensures exact { PrintedUnionIsExact }
    ensures agree { FinishedSectionsAgree }
{
    one_settings();
    sections_are_told();
    texts_differ();
    header_tells();
}

/// What a run over files prints tells the answers, too: where a section begins with the text of a union with answers, whose
/// predicates and constants have names, that union is exact, and these are the answers of the chase over the facts of every
/// input that the files stand for.
pub fn printed_answers_are_exact()
    ensures { PrintedAnswersAreExact }
{
    one_settings();
    sections_are_told();
    texts_differ();
}

/// Two finished runs on the input that is made for one number print the same text, whatever their budgets and workers.
pub fn made_runs_agree()
    ensures { MadeRunsAgree }
{
    one_settings();
}
