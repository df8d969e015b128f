//! All rewritings of one query, as a report for the store.
ghost use Rattle.std.specs.Prelude.{◌≡◌, ◌<◌, ◌≤◌, IfOk, length, slice_index};
ghost use Rattle.ucq_hom.specs.Space.{IsClear};
ghost use Rattle.ucq_store.specs.Candidates.{HoldsCore};
ghost use Rattle.ucq_pool.specs.declared.rewritings.Fault.TheVariants.{Memory};
ghost use Rattle.ucq_pool.specs.Rewritings.{AreFoundBefore, AreProposed, DoesRewrite, DoesRewriteWith, IsUnspentOn};

use crate::indexed::IndexedProblem;
use std::alloc::Global;
use ucq_hom::HomSpace;
use ucq_step::{StepFault, step};
use ucq_store::{Candidate, Report};
use ucq_terms::{NoMemory, Query, Rule};

/// Why the rewritings of a query are not all found.
#[derive(Clone, Copy)]
pub(crate) enum Fault {
    /// The query has with this rule a rewriting of so many atoms, more than a stored query may have.
    Wide { rule: u32, count: u32 },
    /// Want of memory.
    Memory,
}

impl From<NoMemory> for Fault {
    ghost from_gives = { λ _ fault. fault ≡ Memory };

    fn from(_error: NoMemory) -> Fault {
        Fault::Memory
    }
}

/// What is kept of the cores of a report: a copy, by the place of its candidate, or none; and how many candidates have
/// evidence.
#[derive(Drop)]
pub(crate) struct Proposals {
    pub copies: Vec<Option<Query>>,
    pub seen: u64,
}

/// How a core becomes a candidate, and what is kept of it.
pub(crate) trait Propose<'q> {
    /// A candidate that holds the core, with evidence or without. Want of memory is the one error.
    fn propose(
        &self,
        space: &mut HomSpace,
        core: Query,
        proposals: &mut Proposals,
    ) -> Result<Candidate<'q>, NoMemory>
        requires clear { IsClear space.old }
        ensures core { IfOk result (λ c. HoldsCore c core) }
        ensures clear { IsClear space.new };
}

/// Each core as it is, without evidence. Nothing is kept.
#[derive(Drop)]
pub(crate) struct Plainly;

impl<'q> Propose<'q> for Plainly {
    fn propose(
        &self,
        _space: &mut HomSpace,
        core: Query,
        _proposals: &mut Proposals,
    ) -> Result<Candidate<'q>, NoMemory> {
        Ok(Candidate::plain(core))
    }
}

/// A report on all rewritings of the query, or on one that is too wide.
pub(crate) fn report_on<'p, 'q, P: Propose<'q>>(
    alloc: Global,
    space: &mut HomSpace,
    problem: &'q IndexedProblem<'p>,
    query: Query,
    proposer: &P,
) -> Result<(Report<'q>, Proposals), NoMemory>
    requires clear { IsClear space.old }
    ensures report { IfOk result (λ r. IsUnspentOn problem.now query r.0) }
    ensures clear { IsClear space.new }
{
    let mut proposals = Proposals {
        copies: Vec::new(alloc),
        seen: 0,
    };
    let report = match rewrite(alloc, space, problem, &query, proposer, &mut proposals) {
        Ok(candidates) => Report::whole(problem.problem(), query, candidates),
        Err(Fault::Wide { rule, count }) => Report::wide(problem.problem(), query, rule, count),
        Err(Fault::Memory) => return Err(NoMemory),
    };
    Ok((report, proposals))
}

/// Candidates of all rewritings of the query, in order of the rules. Only rules that share a name with the query are tried.
fn rewrite<'q, P: Propose<'q>>(
    alloc: Global,
    space: &mut HomSpace,
    problem: &IndexedProblem,
    query: &Query,
    proposer: &P,
    proposals: &mut Proposals,
) -> Result<Vec<Candidate<'q>>, Fault>
    requires clear { IsClear space.old }
    ensures found { DoesRewrite problem.now.rules query.now result }
    ensures clear { IsClear space.new }
{
    let numbers = problem.relevant(alloc, query)?;
    let mut candidates = Vec::new(alloc);
    for place in 0..numbers.len() {
        rewrite_with(
            alloc,
            space,
            problem.problem().rules(),
            numbers.as_slice(),
            place,
            query,
            proposer,
            proposals,
            &mut candidates,
        )?;
    }
    Ok(candidates)
}

/// Adds the candidates of the rewritings with the rule whose number stands at the place.
fn rewrite_with<'q, P: Propose<'q>>(
    alloc: Global,
    space: &mut HomSpace,
    rules: &[Rule],
    numbers: &[u32],
    place: usize,
    query: &Query,
    proposer: &P,
    proposals: &mut Proposals,
    candidates: &mut Vec<Candidate<'q>>,
) -> Result<(), Fault>
    requires place { place < length numbers.now }
    requires rule { slice_index numbers.now place < length rules.now }
    requires before { AreFoundBefore rules.now numbers.now place query.now candidates.old.items }
    ensures found { DoesRewriteWith rules.now numbers.now place query.now result
        candidates.new.items }
    ensures clear { IsClear space.new }
{
    let rule = numbers[place];
    match step(alloc, space, query, &rules[rule as usize]) {
        Ok(steps) => Ok(propose_all(space, steps.cores, proposer, proposals, candidates)?),
        Err(StepFault::Wide { count }) => Err(Fault::Wide { rule, count }),
        Err(StepFault::Memory) => Err(Fault::Memory),
    }
}

/// Adds a candidate of each core.
fn propose_all<'q, P: Propose<'q>>(
    space: &mut HomSpace,
    cores: Vec<Query>,
    proposer: &P,
    proposals: &mut Proposals,
    candidates: &mut Vec<Candidate<'q>>,
) -> Result<(), NoMemory>
    requires clear { IsClear space.old }
    ensures proposed { IfOk result (λ _.
        AreProposed candidates.old.items cores.items candidates.new.items) }
    ensures clear { IsClear space.new }
{
    candidates.reserve(cores.len())?;
    for core in cores {
        let candidate = proposer.propose(space, core, proposals)?;
        candidates.push(candidate)?;
    }
    Ok(())
}
