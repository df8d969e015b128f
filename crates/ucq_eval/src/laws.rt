//! Laws of answers, each the contract of a function that does nothing.
ghost use Rattle.ucq_eval.specs.Laws.{AnswersAreChaseAnswers, AnswersAreUnique};

/// The answers of an exact union are just the tuples of constants that some finite chase of the facts answers.
pub fn answers_are_chase_answers()
    ensures { AnswersAreChaseAnswers }
{}

/// A union has one list of answers over some facts.
pub fn answers_are_unique()
    ensures { AnswersAreUnique }
{}
