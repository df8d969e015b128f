//! From what is asked to the store, with the answers of its union.
ghost use Rattle.std.specs.Prelude.{◌≡◌, ◌<◌, ◌≤◌, ◌⊎◌, IfOk, MatchOption};
ghost use Rattle.ucq_terms.specs.declared.TheConstants.{ROWS};
ghost use Rattle.ucq_antichain.specs.Rows.{live_queries};
ghost use Rattle.ucq_store.specs.Store.{IsCut, IsFinished};
ghost use Rattle.ucq_run.specs.declared.form.Form.TheVariants.{Queries};
ghost use Rattle.ucq_run.specs.inner.Request.{IsWithinLimits};
ghost use Rattle.ucq_run.specs.inner.Solved.{HasAnswers, IsSolved};

use crate::form::Form;
use crate::request::Shared;
use std::alloc::Global;
use std::sync::Wait;
use std::thread::Threads;
use ucq_eval::{Answers, answers_with_texts, answers_with_texts_split};
use ucq_hom::HomSpace;
use ucq_outside::Gate;
use ucq_pool::{alone, rounds};
use ucq_store::Store;
use ucq_terms::{NoMemory, Problem, Union};

/// What came of the rewriting: the store, finished or cut, and the answers of a finished one's union, where the form has them.
#[derive(Drop)]
pub struct Solved<'p> {
    pub store: Store<'p>,
    pub answers: Answers<'p>,
}

/// The union whose answers are asked for: that of a finished store, where the form has answers.
fn answered_union(alloc: Global, form: Form, store: &Store) -> Result<Option<Union>, NoMemory>
    ensures { IfOk result (λ found.
        MatchOption found (IsFinished store.now → form ≡ Queries) (λ union.
        union ≡ live_queries store.now.rows)) }
{
    if form == Form::Queries || !store.is_finished() {
        return Ok(None);
    }
    Ok(Some(store.union(alloc)?))
}

/// The answers over the facts of the union of a finished store, where the form has them.
fn answers_of<'p>(alloc: Global, shared: &'p Shared, store: &Store) -> Result<Answers<'p>, NoMemory>
    ensures { IfOk result (HasAnswers shared.entry.now store.now) }
{
    match answered_union(alloc, shared.form, store)? {
        Some(union) => Ok(answers_with_texts(alloc, &union, &shared.names, &shared.facts)?),
        None => Ok(Answers::none(alloc, &shared.names)),
    }
}

/// The same by as many threads as there are workers.
fn answers_by_threads<'p, R: Threads + Wait + Sync>(
    rt: &R,
    alloc: Global,
    shared: &'p Shared,
    store: &Store,
) -> Result<Answers<'p>, NoMemory>
    requires { IsWithinLimits shared.now }
    ensures { IfOk result (HasAnswers shared.entry.now store.now) }
{
    match answered_union(alloc, shared.form, store)? {
        Some(union) => {
            let (names, facts) = (&shared.names, &shared.facts);
            let threads = shared.workers as usize;
            Ok(answers_with_texts_split(rt, alloc, threads, &union, names, facts)?)
        }
        None => Ok(Answers::none(alloc, &shared.names)),
    }
}

/// Rewrites the query of a problem with its rules on one thread, and finds the answers. The only error is want of memory.
pub fn solve_alone<'p>(
    alloc: Global,
    shared: &'p Shared,
    problem: &'p Problem,
) -> Result<Solved<'p>, NoMemory>
    requires { IsWithinLimits shared.now }
    ensures { IfOk result (λ solved. IsSolved shared.entry.now problem.entry.now solved) }
{
    let store = store_of(alloc, problem, shared.budget)?;
    let answers = answers_of(alloc, shared, &store)?;
    Ok(Solved { store, answers })
}

/// The store of the problem, finished or cut, on one thread.
pub fn store_of<'p>(alloc: Global, problem: &'p Problem, budget: u32) -> Result<Store<'p>, NoMemory>
    requires some { 0 < budget }
    requires small { budget ≤ ROWS }
    ensures done { IfOk result (λ s. IsFinished s ⊎ IsCut s) }
    ensures problem { IfOk result (λ s. (s.problem ≡ problem.now) × (s.budget ≡ budget)) }
{
    let mut space = HomSpace::new(alloc)?;
    alone(alloc, &mut space, problem, budget)
}

/// The same by as many workers as are asked for, who pass the gate. One worker works alone, and then all is done on one
/// thread.
pub fn solve_by_crew<'p, G: Gate + Sync, R: Threads + Wait + Sync>(
    rt: &R,
    alloc: Global,
    shared: &'p Shared,
    problem: &'p Problem,
    gate: &G,
) -> Result<Solved<'p>, NoMemory>
    requires { IsWithinLimits shared.now }
    ensures { IfOk result (λ solved. IsSolved shared.entry.now problem.entry.now solved) }
{
    if shared.workers == 1 {
        return solve_alone(alloc, shared, problem);
    }
    let store = rounds(rt, alloc, problem, shared.budget, shared.workers, gate)?;
    let answers = answers_by_threads(rt, alloc, shared, &store)?;
    Ok(Solved { store, answers })
}

/// The store of the problem, by as many workers as are asked for, who pass the gate.
pub fn store_by_crew<'p, G: Gate + Sync, R: Threads + Wait + Sync>(
    rt: &R,
    alloc: Global,
    shared: &Shared,
    problem: &'p Problem,
    gate: &G,
) -> Result<Store<'p>, NoMemory>
    requires { IsWithinLimits shared.now }
    ensures done { IfOk result (λ s. IsFinished s ⊎ IsCut s) }
    ensures problem { IfOk result (λ s.
        (s.problem ≡ problem.now) × (s.budget ≡ shared.now.budget)) }
{
    if shared.workers == 1 {
        return store_of(alloc, problem, shared.budget);
    }
    rounds(rt, alloc, problem, shared.budget, shared.workers, gate)
}
