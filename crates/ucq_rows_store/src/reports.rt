//! Reports on queries under one rule.
ghost use Rattle.std.specs.Prelude.{◌≡◌, [], false, length, IfOk};
ghost use Rattle.ucq_pool.specs.Rewritings.{AreProposed};
ghost use Rattle.ucq_step.specs.Steps.{AreSteps};
ghost use Rattle.ucq_store.specs.Candidates.{HoldsCore};
ghost use Rattle.ucq_store.specs.Reports.{AreFound};

use std::alloc::{AllocError, Global};
use std::process::Abort;
use ucq_hom::{HomSpace, covers};
use ucq_step::step;
use ucq_store::{Candidate, Report};
use ucq_terms::{Problem, Query, Rule};
use ucq_worked::problem;

/// The problem of one rule and a query.
pub(crate) fn one_rule(rt: &impl Abort, alloc: Global, rule: &str, question: &str) -> Problem
    ensures { length result.rules ≡ 1 }
{
    match problem(alloc, &[rule], question) {
        Ok(problem) => problem,
        Err(fault) => panic!(rt; "{fault:?}"),
    }
}

/// A row and a query that it is said to hold.
pub(crate) type Evidence<'q> = Option<(u32, &'q Query)>;

/// The candidate of the core, which has the evidence where the core is covered by its query.
fn candidate<'q>(space: &mut HomSpace, core: Query, evidence: Evidence<'q>) -> Candidate<'q>
    ensures { HoldsCore result core }
{
    match evidence {
        Some((row, by)) if covers(space, by, &core) => Candidate::known(core, row, by),
        _ => Candidate::plain(core),
    }
}

fn candidates<'q>(
    alloc: Global,
    space: &mut HomSpace,
    cores: Vec<Query>,
    evidence: Evidence<'q>,
) -> Result<Vec<Candidate<'q>>, AllocError>
    ensures { IfOk result (λ v. AreProposed [] cores.items v.items) }
{
    let mut all = Vec::new(alloc);
    for core in cores {
        all.push(candidate(space, core, evidence))?;
    }
    Ok(all)
}

/// The candidates of the cores.
fn all_candidates<'q>(
    rt: &impl Abort,
    alloc: Global,
    space: &mut HomSpace,
    cores: Vec<Query>,
    evidence: Evidence<'q>,
) -> Vec<Candidate<'q>>
    ensures { AreProposed [] cores.items result.items }
{
    match candidates(alloc, space, cores, evidence) {
        Ok(all) => all,
        Err(fault) => panic!(rt; "{fault:?}"),
    }
}

/// The cores of all rewritings of the query with the rule.
fn cores_of(
    rt: &impl Abort,
    alloc: Global,
    space: &mut HomSpace,
    query: &Query,
    rule: &Rule,
) -> Vec<Query>
    ensures { AreSteps query.now rule.now result.items }
{
    match step(alloc, space, query, rule) {
        Ok(steps) => steps.cores,
        Err(fault) => panic!(rt; "{fault:?}"),
    }
}

/// The candidates of all rewritings of the query.
fn found<'q>(
    rt: &impl Abort,
    alloc: Global,
    space: &mut HomSpace,
    problem: &Problem,
    query: &Query,
    evidence: Evidence<'q>,
) -> Vec<Candidate<'q>>
    requires { length problem.now.rules ≡ 1 }
    ensures { AreFound problem.now.rules query.now result.items }
{
    let cores = cores_of(rt, alloc, space, query, &problem.rules()[0]);
    all_candidates(rt, alloc, space, cores, evidence)
}

/// The report on the query.
pub(crate) fn report_on<'q>(
    rt: &impl Abort,
    alloc: Global,
    space: &mut HomSpace,
    problem: &'q Problem,
    query: Query,
    evidence: Evidence<'q>,
) -> Report<'q>
    requires { length problem.now.rules ≡ 1 }
    ensures { result.spent ≡ false }
{
    let candidates = found(rt, alloc, space, problem, &query, evidence);
    Report::whole(problem, query, candidates)
}
