//! Worked examples of the definitions, each the contract of a function that does nothing.
#![tactic(auto)]

ghost use Rattle.ucq_examples.specs.Examples.{BodyApart, ChaseAnswers, ConstantsClash, Cores, EqualHeadAtoms, ExistentialMeetsConstant, HeadOfTwoFrees, RepeatedAtom};
ghost use Rattle.ucq_examples.specs.Examples.{BudgetOfTwo, SeparatingBlocks, SharedExistential, TwoCopies, TwoPieces};

/// Two atoms that are a piece each are rewritten together by an aggregate, and are no single piece.
pub fn two_pieces()
    ensures { TwoPieces }
{}

/// A variable that is separating blocks the piece that would make it existential.
pub fn separating_blocks()
    ensures { SeparatingBlocks }
{}

/// A head of two atoms matches both at once, and so frees that variable.
pub fn head_of_two_frees()
    ensures { HeadOfTwoFrees }
{}

/// Two constants clash.
pub fn constants_clash()
    ensures { ConstantsClash }
{}

/// Two atoms that share what is existential are matched together or not at all.
pub fn shared_existential()
    ensures { SharedExistential }
{}

/// Two copies of one rule rewrite two atoms.
pub fn two_copies()
    ensures { TwoCopies }
{}

/// A core, a query that is none, and the exact union of that query where there are no rules.
pub fn cores()
    ensures { Cores }
{}

/// An answer of the chase.
pub fn chase_answers()
    ensures { ChaseAnswers }
{}

/// An atom that stands twice would be rewritten twice, and no level has such a query.
pub fn repeated_atom()
    ensures { RepeatedAtom }
{}

/// An existential variable that would meet a constant blocks the piece.
pub fn existential_meets_constant()
    ensures { ExistentialMeetsConstant }
{}

/// Equal atoms at two places of a head are two atoms of it, and make two pieces.
pub fn equal_head_atoms()
    ensures { EqualHeadAtoms }
{}

/// A body that shares no variable with its head comes in with variables of its own.
pub fn body_apart()
    ensures { BodyApart }
{}

/// A budget that is enough for a problem with one rewriting.
pub fn budget_of_two()
    ensures { BudgetOfTwo }
{}
