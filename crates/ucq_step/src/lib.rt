//! One-step rewritings of a query with a rule, each by an aggregate of single pieces.
//!
//! After M. König, M. Leclère, M.-L. Mugnier and M. Thomazo, *Sound, complete and minimal UCQ-rewriting for existential
//! rules*, Semantic Web 6, 2015.
#![tactic(auto)]

ghost use Rattle.std.specs.Prelude.{◌≡◌, true, false, OnOk, IfOk};
ghost use Rattle.ucq_terms.specs.Homomorphism.{IsCoreOf};
ghost use Rattle.ucq_hom.specs.Space.{IsClear};
ghost use Rattle.ucq_step.specs.Kept.{AreMore, HasEquivalent, HaveCores, HasAddedCore};
ghost use Rattle.ucq_step.specs.Steps.{IsStepResult};
ghost use Rattle.ucq_step.specs.inner.Walked.{WalksIn, AreFoundTo, DoesAddNext, AreCoresOf};
ghost use Rattle.ucq_unify.specs.Pieces.{AreSinglePieces};
ghost use Rattle.ucq_step.specs.declared.StepFault.TheVariants.{Memory};

mod kept;
mod rewriting;

use kept::Kept;
use rewriting::rewrite;
use std::alloc::{AllocError, AllocFailed, Global};
use ucq_fold::{may_fold, normal_form, shrink};
use ucq_hom::HomSpace;
use ucq_join::Joins;
use ucq_terms::{NoMemory, Piece, Query, Rule};
use ucq_unify::single_pieces;

/// What a step gives: each core is a core of a one-step rewriting, and each one-step rewriting is covered by one of them.
/// No two cores are equal, but some may cover others.
#[derive(Drop)]
pub struct Steps {
    pub cores: Vec<Query>,
}

/// Why a step has no answer.
#[derive(Clone, Copy, Debug, PartialEq, Eq)]
pub enum StepFault {
    /// A one-step rewriting has this many different atoms, more than `ATOMS`, whatever its core has.
    Wide { count: u32 },
    /// Want of memory.
    Memory,
}

impl From<AllocError> for StepFault {
    ghost from_gives = { λ _ e. e ≡ Memory };

    fn from(_error: AllocError) -> StepFault {
        StepFault::Memory
    }
}

impl<T: Drop> From<AllocFailed<T>> for StepFault {
    ghost from_gives = { λ _ e. e ≡ Memory };

    fn from(_error: AllocFailed<T>) -> StepFault {
        StepFault::Memory
    }
}

impl From<NoMemory> for StepFault {
    ghost from_gives = { λ _ e. e ≡ Memory };

    fn from(_error: NoMemory) -> StepFault {
        StepFault::Memory
    }
}

/// What a walk over sets of pieces found: normal forms of rewritings, and cores.
#[derive(Drop)]
struct Found {
    forms: Kept,
    cores: Kept,
}

/// Whether no form that was kept shows that the rewriting is one of those before but for names and order. Its own form is
/// kept too, unless it is the only rewriting.
fn is_new(
    alloc: Global,
    forms: &mut Kept,
    rewriting: &Query,
    is_only: bool,
) -> Result<bool, NoMemory>
    ensures more { OnOk result (AreMore forms.old rewriting.now forms.new) }
    ensures held { IfOk result (λ is_new. is_new ≡ false → HasEquivalent forms.old rewriting.now) }
{
    if is_only {
        return Ok(true);
    }
    let form = normal_form(alloc, rewriting)?;
    let is_new = forms.keep(form)?;
    Ok(is_new)
}

/// Folds the rewriting to its core, unless the forms show that an earlier one is the same but for names and order. Tells
/// whether they don't. No form is made of a rewriting none of whose atoms may go to another, since it is a core as it is.
fn fold_new(
    alloc: Global,
    space: &mut HomSpace,
    forms: &mut Kept,
    rewriting: &mut Query,
    is_only: bool,
) -> Result<bool, NoMemory>
    requires clear { IsClear space.old }
    ensures more { OnOk result (AreMore forms.old rewriting.old forms.new) }
    ensures core { IfOk result (λ is_new. is_new ≡ true → IsCoreOf rewriting.old rewriting.new) }
    ensures held { IfOk result (λ is_new. is_new ≡ false → HasEquivalent forms.old rewriting.old) }
    ensures clear { IsClear space.new }
{
    if !may_fold(space, rewriting) {
        return Ok(true);
    }
    if !is_new(alloc, forms, rewriting, is_only)? {
        return Ok(false);
    }
    shrink(space, rewriting);
    Ok(true)
}

/// Adds the core of the rewriting to the cores. Where the forms show that an earlier rewriting is the same but for names
/// and order, the core of that one is its core too.
fn add_core(
    alloc: Global,
    space: &mut HomSpace,
    forms: &mut Kept,
    cores: &mut Kept,
    mut rewriting: Query,
    is_only: bool,
) -> Result<(), NoMemory>
    requires have { HaveCores forms.old cores.old }
    requires clear { IsClear space.old }
    ensures have { OnOk result (HaveCores forms.new cores.new) }
    ensures added { OnOk result (HasAddedCore cores.old rewriting cores.new) }
    ensures clear { IsClear space.new }
{
    if !fold_new(alloc, space, forms, &mut rewriting, is_only)? {
        return Ok(());
    }
    let _ = cores.keep(rewriting)?;
    Ok(())
}

/// Adds the core of the rewriting by the next set of pieces to what was found, and tells whether there was one.
fn add_next(
    alloc: Global,
    space: &mut HomSpace,
    query: &Query,
    rule: &Rule,
    pieces: &[Piece],
    joins: &mut Joins,
    found: &mut Found,
) -> Result<bool, StepFault>
    requires single { AreSinglePieces query.now rule.now pieces.now }
    requires walks { WalksIn joins.old query.now rule.now pieces.now }
    requires so_far { AreFoundTo joins.old found.old.forms found.old.cores }
    requires clear { IsClear space.old }
    ensures next { DoesAddNext joins.old joins.new query.now rule.now result }
    ensures so_far { OnOk result (AreFoundTo joins.new found.new.forms found.new.cores) }
    ensures clear { IsClear space.new }
{
    let Some(joined) = joins.next()? else {
        return Ok(false);
    };
    let rewriting = rewrite(alloc, query, rule, pieces, &joined)?;
    let is_only = pieces.len() == 1;
    add_core(
        alloc,
        space,
        &mut found.forms,
        &mut found.cores,
        rewriting,
        is_only,
    )?;
    Ok(true)
}

/// The cores of the rewritings by all sets of these pieces that make an aggregate.
fn cores_of(
    alloc: Global,
    space: &mut HomSpace,
    query: &Query,
    rule: &Rule,
    pieces: &[Piece],
) -> Result<Kept, StepFault>
    requires single { AreSinglePieces query.now rule.now pieces.now }
    requires clear { IsClear space.old }
    ensures cores { AreCoresOf query.now rule.now result }
    ensures clear { IsClear space.new }
{
    let mut joins = Joins::new(alloc, query, rule, pieces)?;
    let mut found = Found {
        forms: Kept::new(alloc),
        cores: Kept::new(alloc),
    };
    while add_next(alloc, space, query, rule, pieces, &mut joins, &mut found)? {}
    Ok(found.cores)
}

/// The cores of the query's rewritings with the rule by all aggregates of single pieces, none of them twice.
///
/// `StepFault::Wide` comes exactly where some one-step rewriting has more than `ATOMS` different atoms, and tells the width
/// of one. The space is left as after a false answer, whatever the result.
///
/// One rewriting is built at a time, and folded at once, unless one before it had the same normal form. So memory grows with
/// the cores and the forms that are kept, and time with the number of aggregates, of which `n` disjoint pieces have
/// `2^n - 1`, and with what it takes to fold rewritings of different forms.
pub fn step(
    alloc: Global,
    space: &mut HomSpace,
    query: &Query,
    rule: &Rule,
) -> Result<Steps, StepFault>
    ensures steps { IsStepResult query.now rule.now result }
    ensures clear { IsClear space.new }
{
    space.clear();
    let pieces = single_pieces(alloc, query, rule)?;
    if pieces.is_empty() {
        return Ok(Steps {
            cores: Vec::new(alloc),
        });
    }
    let cores = cores_of(alloc, space, query, rule, pieces.as_slice())?;
    let cores = cores.into_queries(alloc)?;
    Ok(Steps { cores })
}
