//! Laws of the chase and of unions of queries, each the contract of a function that does nothing.
//!
//! They stand over the definitions of `ucq_terms` alone, for all problems, instances, queries and tuples. After M. König,
//! M. Leclère, M.-L. Mugnier and M. Thomazo, *Sound, complete and minimal UCQ-rewriting for existential rules*, Semantic
//! Web 6, 2015, where unifiers are worded otherwise.
#![tactic(auto)]

ghost use Rattle.ucq_chase.specs.Laws.{ClosedIsComplete, CoreOfSoundIsSound, CoversIsKept, EquivalentKeepsExact, ExactIsUnique, NumberingKeepsExact, OneStepIsSound, PullBack, SoundIsCarried};
ghost use Rattle.ucq_chase.specs.Names.{CoreKeepsNames, CoveringKeepsNames, OneStepKeepsNames};

/// Where a sound query maps into facts with a tuple, the tuple is an answer of the chase over these facts. So a core of a
/// sound query is sound too.
///
/// A chase is carried along a homomorphism of its facts: R. Fagin, P. Kolaitis, R. Miller and L. Popa, *Data exchange:
/// semantics and query answering*, Theoretical Computer Science 336, 2005.
pub fn sound_is_carried()
    ensures carried { SoundIsCarried }
    ensures core { CoreOfSoundIsSound }
{}

/// A rewriting of a sound query, by an aggregate of single-piece unifiers, is sound: where it maps into facts, the rules
/// of its members can be applied one after the other, and the query then maps into what they give.
///
/// After the soundness of piece-unifiers in J.-F. Baget, M. Leclère, M.-L. Mugnier and E. Salvat, *On rules with
/// existential variables*, Artificial Intelligence 175, 2011, and of aggregated unifiers in König and others 2015.
pub fn one_step_is_sound()
    ensures { OneStepIsSound }
{}

/// A query that maps into the instance after a chase step, with a tuple that holds none of the step's new unknown values,
/// maps into the instance before it with that tuple, or has a one-step rewriting with the step's rule that does.
///
/// After the completeness of aggregated unifiers in König and others 2015.
pub fn pull_back()
    ensures { PullBack }
{}

/// A list of queries that covers the problem's query, and each one-step rewriting of each of its members, is complete: over
/// all facts, for every answer of the chase, some member maps into the facts with it.
///
/// After the completeness of the breadth-first rewriting in König and others 2015.
pub fn closed_is_complete()
    ensures { ClosedIsComplete }
{}

/// Two exact unions of a problem are equal up to renaming: each member of one is isomorphic to exactly one of the other.
///
/// After the uniqueness of minimal rewritings in König and others 2015. That equivalent cores are isomorphic is standard:
/// A. K. Chandra and P. M. Merlin, *Optimal implementation of conjunctive queries in relational data bases*, STOC 1977.
pub fn exact_is_unique()
    ensures { ExactIsUnique }
{}

/// An exact union stays one where the variables of its queries are numbered otherwise, and where the problem's query
/// becomes an equivalent one.
pub fn exact_is_kept()
    ensures numbering { NumberingKeepsExact }
    ensures equivalent { EquivalentKeepsExact }
{}

/// Where one query covers another, it covers each one-step rewriting of the other, itself or by a one-step rewriting of its
/// own with the same rule. So a covered query may be pruned before it is rewritten.
///
/// After the lemma on pruning in König and others 2015.
pub fn covers_is_kept()
    ensures { CoversIsKept }
{}

/// A rewriting has no names but those of the query and the rules: where each predicate and constant of these is a number
/// below some count, so is each of a one-step rewriting of the query, of a query that covers it, and of a core of it.
pub fn rewriting_keeps_names()
    ensures one_step { OneStepKeepsNames }
    ensures covering { CoveringKeepsNames }
    ensures core { CoreKeepsNames }
{}
