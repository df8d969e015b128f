//! The rewriting on one thread.
ghost use Rattle.std.specs.Prelude.{◌≡◌, ◌<◌, ◌≤◌, ◌⊎◌, IfOk, None};
ghost use Rattle.ucq_terms.specs.declared.TheConstants.{ROWS};
ghost use Rattle.ucq_hom.specs.Space.{IsClear};
ghost use Rattle.ucq_store.specs.Store.{IsRow, IsCut, IsFinished};
ghost use Rattle.ucq_store.specs.Calls.{IsClaimed};
ghost use Rattle.ucq_store.specs.Laws.{IsEnough};
ghost use Rattle.ucq_pool.specs.inner.Progress.{IsAtRest, IsExplored, DoesAdvance, IsSameTask};

use crate::indexed::IndexedProblem;
use crate::rewritings::{Plainly, report_on};
use std::alloc::Global;
use ucq_hom::HomSpace;
use ucq_store::laws::enough_budget;
use ucq_store::{Claim, Store};
use ucq_terms::{NoMemory, Problem};

/// Rewrites the problem's query level by level until no row is left to explore, or the store is cut. The budget is 1 to
/// 65,536. Where it is enough for the levels of the problem, the store is finished. Want of memory is the one error.
pub fn alone<'p>(
    alloc: Global,
    space: &mut HomSpace,
    problem: &'p Problem,
    budget: u32,
) -> Result<Store<'p>, NoMemory>
    requires some { 0 < budget }
    requires small { budget ≤ ROWS }
    ensures done { IfOk result (λ s. IsFinished s ⊎ IsCut s) }
    ensures problem { IfOk result (λ s. (s.problem ≡ problem.now) × (s.budget ≡ budget)) }
    ensures enough { IfOk result (λ s. IsEnough problem.now budget → IsFinished s) }
    ensures clear { IsClear space.new }
{
    enough_budget();
    let store = Store::new(alloc, space, problem, budget)?;
    let problem = IndexedProblem::new(alloc, problem)?;
    let ended = go_on(alloc, space, store, &problem)?;
    // A reader tells that the store is lawful.
    let _ = ended.rows();
    Ok(ended)
}

/// Goes on with a store of the problem until no row is left to explore, or the store is cut.
pub(crate) fn go_on<'p>(
    alloc: Global,
    space: &mut HomSpace,
    store: Store<'p>,
    problem: &IndexedProblem<'p>,
) -> Result<Store<'p>, NoMemory>
    requires rest { IsAtRest store }
    requires problem { store.problem ≡ problem.now }
    requires clear { IsClear space.old }
    ensures done { IfOk result (λ s. IsFinished s ⊎ IsCut s) }
    ensures task { IfOk result (λ s. IsSameTask store.entry s) }
    ensures clear { IsClear space.new }
{
    let mut store = store;
    while advance(alloc, space, &mut store, problem)? {}
    Ok(store)
}

/// Explores the first open row, or raises the level. False says that nothing is left to do, or the store is cut.
fn advance<'p>(
    alloc: Global,
    space: &mut HomSpace,
    store: &mut Store<'p>,
    problem: &IndexedProblem<'p>,
) -> Result<bool, NoMemory>
    requires rest { IsAtRest store.old }
    requires problem { store.old.problem ≡ problem.now }
    requires clear { IsClear space.old }
    ensures advances { IfOk result (λ more. DoesAdvance store.old more store.new) }
    ensures task { IfOk result (λ _. IsSameTask store.old store.new) }
    ensures clear { IsClear space.new }
{
    match store.claim() {
        Some(claim) => {
            explore(alloc, space, store, problem, claim)?;
            Ok(store.cut().is_none())
        }
        None => Ok(store.next_level()),
    }
}

/// Rewrites the query of a claimed row with every rule, and publishes what is found.
fn explore<'p>(
    alloc: Global,
    space: &mut HomSpace,
    store: &mut Store<'p>,
    problem: &IndexedProblem<'p>,
    claim: Claim,
) -> Result<(), NoMemory>
    requires uncut { store.old.cut ≡ None }
    requires problem { store.old.problem ≡ problem.now }
    requires row { IsRow store.old claim.row }
    requires claimed { IsClaimed store.old claim }
    requires clear { IsClear space.old }
    ensures explored { IfOk result (λ _. IsExplored store.old claim.row store.new) }
    ensures clear { IsClear space.new }
{
    let query = store.query_of(claim.row).copy()?;
    let (mut report, _) = report_on(alloc, space, problem, query, &Plainly)?;
    // The row is claimed and the report is on it, so the store takes the report or is cut.
    let _ = store.publish_own(space, claim, &mut report);
    Ok(())
}
