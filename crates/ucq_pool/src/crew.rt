//! Rounds of workers, one for each level.
ghost use Rattle.std.specs.Prelude.{◌≡◌, ◌+◌, ◌<◌, ◌≤◌, ◌⊎◌, ◌^◌, IfOk, IfSome, length, vec_len};
ghost use Rattle.ucq_terms.specs.declared.TheConstants.{ROWS};
ghost use Rattle.ucq_board.specs.Values.{IsSeatOf};
ghost use Rattle.ucq_hom.specs.Space.{IsClear};
ghost use Rattle.ucq_store.specs.Store.{IsCut, IsFinished};
ghost use Rattle.ucq_store.specs.Laws.{IsEnough};
ghost use Rattle.ucq_pool.specs.inner.Shared.{IsAtWork, IsStage};

use crate::indexed::IndexedProblem;
use crate::solo::{alone, go_on};
use crate::task::{Task, TaskStore};
use crate::worker::{Round, Worker};
use std::alloc::{AllocError, Global};
use std::marker::{Brand, PhantomData};
use std::sync::{Mutex, Wait};
use std::thread;
use std::thread::Threads;
use ucq_board::{Board, Seat};
use ucq_hom::HomSpace;
use ucq_log::Log;
use ucq_outside::Gate;
use ucq_store::laws::enough_budget;
use ucq_store::{Claim, Store};
use ucq_terms::{NoMemory, Problem};

/// A store to which fewer claims were given has numbers enough for all that is left to do.
const CLAIMS: u64 = 1 << 63;

/// How much the workers did: how often a row was drawn from a board, and how many candidates were given with evidence.
#[derive(Clone, Copy, Debug, PartialEq, Eq)]
pub struct Note {
    pub drawn: u64,
    pub seen: u64,
}

/// A worker at a seat of the task's board, which its type says: a closure that says it by clauses takes minutes to prove.
#[derive(Drop)]
struct Job<'l, T: Task> {
    worker: Worker<'l>,
    seat: Seat,
    task: PhantomData<T>,
    ghost at_work: { IsAtWork T.board seat },
}

/// The workers, and how many rows they drew from boards.
#[derive(Drop)]
struct Crew<'l> {
    workers: Vec<Worker<'l>>,
    drawn: u64,
}

/// What a round leaves: the store as its lock held it last, and whether memory was wanting.
#[derive(Drop)]
struct Rested<'p> {
    store: Store<'p>,
    is_wanting: bool,
}

/// Where a rewriting stands after a round.
#[derive(Drop)]
pub(crate) enum Stage<'p> {
    /// There are rows to explore.
    Going(Store<'p>),
    /// The store is finished or cut.
    Ended(Store<'p>),
}

/// Rewrites the problem's query level by level until no row is left to explore, or the store is cut, as `alone` does, with
/// 1 to 64 workers in threads of their own. The budget is 1 to 65,536; where it is enough for the levels of the problem, the
/// store is finished. A worker passes the gate between the claim of a row and the publication of what it found. Want of
/// memory is the one error; where a worker finds none its row is open again, and the caller goes on alone.
///
/// The call waits for the store's lock and for its threads, so its return isn't promised.
pub fn rounds<'p, R: Threads + Wait + Sync, G: Gate + Sync>(
    rt: &R,
    alloc: Global,
    problem: &'p Problem,
    budget: u32,
    workers: u32,
    gate: &G,
) -> Result<Store<'p>, NoMemory>
    requires some { 0 < budget }
    requires small { budget ≤ ROWS }
    requires one { 0 < workers }
    requires few { workers ≤ 64 }
    ensures done { IfOk result (λ s. IsFinished s ⊎ IsCut s) }
    ensures problem { IfOk result (λ s. (s.problem ≡ problem.entry.now) × (s.budget ≡ budget)) }
    ensures enough { IfOk result (λ s. IsEnough problem.entry.now budget → IsFinished s) }
{
    let (store, _) = rounds_noted(rt, alloc, problem, budget, workers, gate)?;
    Ok(store)
}

/// The same, with a note of what the workers did, of which nothing is promised.
pub fn rounds_noted<'p, R: Threads + Wait + Sync, G: Gate + Sync>(
    rt: &R,
    alloc: Global,
    problem: &'p Problem,
    budget: u32,
    workers: u32,
    gate: &G,
) -> Result<(Store<'p>, Note), NoMemory>
    requires some { 0 < budget }
    requires small { budget ≤ ROWS }
    requires one { 0 < workers }
    requires few { workers ≤ 64 }
    ensures done { IfOk result (λ r. IsFinished r.0 ⊎ IsCut r.0) }
    ensures problem { IfOk result (λ r. (r.0.problem ≡ problem.entry.now) × (r.0.budget ≡ budget)) }
    ensures enough { IfOk result (λ r. IsEnough problem.entry.now budget → IsFinished r.0) }
{
    let mut space = HomSpace::new(alloc)?;
    rounds_in(rt, alloc, &mut space, problem, budget, workers, gate)
}

/// The same with room for searches.
fn rounds_in<'p, R: Threads + Wait + Sync, G: Gate + Sync>(
    rt: &R,
    alloc: Global,
    space: &mut HomSpace,
    problem: &'p Problem,
    budget: u32,
    workers: u32,
    gate: &G,
) -> Result<(Store<'p>, Note), NoMemory>
    requires some { 0 < budget }
    requires small { budget ≤ ROWS }
    requires clear { IsClear space.old }
    ensures done { IfOk result (λ r. IsFinished r.0 ⊎ IsCut r.0) }
    ensures problem { IfOk result (λ r. (r.0.problem ≡ problem.entry.now) × (r.0.budget ≡ budget)) }
    ensures enough { IfOk result (λ r. IsEnough problem.entry.now budget → IsFinished r.0) }
{
    let log = Log::new(alloc)?;
    let mut crew = hire(alloc, workers, &log)?;
    let store = rounds_by(rt, alloc, space, problem, budget, &mut crew, gate)?;
    Ok((store, note_of(&crew)))
}

/// Lets the crew rewrite the problem's query to the end.
fn rounds_by<'p, 'l, R: Threads + Wait + Sync, G: Gate + Sync>(
    rt: &R,
    alloc: Global,
    space: &mut HomSpace,
    problem: &'p Problem,
    budget: u32,
    crew: &mut Crew<'l>,
    gate: &G,
) -> Result<Store<'p>, NoMemory>
    requires some { 0 < budget }
    requires small { budget ≤ ROWS }
    requires clear { IsClear space.old }
    ensures done { IfOk result (λ s. IsFinished s ⊎ IsCut s) }
    ensures problem { IfOk result (λ s. (s.problem ≡ problem.entry.now) × (s.budget ≡ budget)) }
    ensures enough { IfOk result (λ s. IsEnough problem.entry.now budget → IsFinished s) }
{
    let indexed = IndexedProblem::new(alloc, problem)?;
    let store = Store::new(alloc, space, problem, budget)?;
    explore_levels(rt, alloc, space, &indexed, store, crew, gate)
}

/// Lets the crew explore level by level, until no row is left to explore or the store is cut.
fn explore_levels<'p, 'l, R: Threads + Wait + Sync, G: Gate + Sync>(
    rt: &R,
    alloc: Global,
    space: &mut HomSpace,
    problem: &IndexedProblem<'p>,
    store: Store<'p>,
    crew: &mut Crew<'l>,
    gate: &G,
) -> Result<Store<'p>, NoMemory>
    requires problem { store.problem ≡ problem.now }
    requires some { 0 < store.budget }
    requires small { store.budget ≤ ROWS }
    requires clear { IsClear space.old }
    ensures done { IfOk result (λ s. IsFinished s ⊎ IsCut s) }
    ensures problem { IfOk result (λ s.
        (s.problem ≡ problem.now) × (s.budget ≡ store.entry.budget)) }
    ensures enough { IfOk result (λ s. IsEnough problem.now store.entry.budget → IsFinished s) }
{
    enough_budget();
    let mut store = store;
    for _ in rt.forever() {
        match explore_level(rt, alloc, space, problem, store, crew, gate)? {
            Stage::Going(going) => store = going,
            Stage::Ended(ended) => {
                // A reader tells that the store is lawful.
                let _ = ended.rows();
                return Ok(ended);
            }
        }
    }
    unreachable!()
}

/// Claims the open rows, and lets the crew explore them in a round.
fn explore_level<'p, 'l, R: Threads + Wait + Sync, G: Gate + Sync>(
    rt: &R,
    alloc: Global,
    space: &mut HomSpace,
    problem: &IndexedProblem<'p>,
    store: Store<'p>,
    crew: &mut Crew<'l>,
    gate: &G,
) -> Result<Stage<'p>, NoMemory>
    requires problem { store.problem ≡ problem.now }
    requires some { 0 < store.budget }
    requires small { store.budget ≤ ROWS }
    requires clear { IsClear space.old }
    ensures stage { IfOk result (IsStage problem.now store.entry.budget) }
    ensures clear { IsClear space.new }
{
    let mut store = store;
    let claims = claim_open(alloc, &mut store)?;
    let rested = round(rt, alloc, problem, store, claims.as_slice(), crew, gate)?;
    after_round(alloc, space, problem, rested)
}

/// So many workers with this log.
fn hire<'l>(alloc: Global, count: u32, log: &'l Log) -> Result<Crew<'l>, NoMemory>
    ensures { IfOk result (λ crew. vec_len crew.workers ≡ count) }
{
    let mut workers = Vec::with_capacity(alloc, count as usize)?;
    for number in 0..count {
        workers.push(Worker::new(alloc, number, log)?)?;
    }
    Ok(Crew { workers, drawn: 0 })
}

/// What the workers did.
fn note_of(crew: &Crew) -> Note {
    let mut seen: u64 = 0;
    for worker in &crew.workers {
        seen = seen.saturating_add(worker.seen());
    }
    Note {
        drawn: crew.drawn,
        seen,
    }
}

/// Claims all open rows, and gives the claims.
fn claim_open(alloc: Global, store: &mut Store) -> Result<Vec<Claim>, NoMemory>
    requires { store.old.budget ≤ ROWS }
    ensures few { IfOk result (λ claims. vec_len claims ≤ ROWS) }
    ensures task { IfOk result (λ _.
        (store.new.problem ≡ store.old.problem) × (store.new.budget ≡ store.old.budget)) }
{
    let mut claims = Vec::new(alloc);
    for _ in 0..store.rows() {
        let Some(claim) = store.claim() else {
            break;
        };
        claims.push(claim)?;
    }
    Ok(claims)
}

/// Lets workers explore the claimed rows of the store, each worker in a thread of its own where one can be made, and no more
/// of them than there are claims.
fn round<'p, 'l, R: Threads + Wait + Sync, G: Gate + Sync>(
    rt: &R,
    alloc: Global,
    problem: &IndexedProblem<'p>,
    store: Store<'p>,
    claims: &[Claim],
    crew: &mut Crew<'l>,
    gate: &G,
) -> Result<Rested<'p>, NoMemory>
    requires problem { store.problem ≡ problem.now }
    requires claims { length claims.now ≤ ROWS }
    ensures problem { IfOk result (λ r. r.store.problem ≡ problem.now) }
    ensures budget { IfOk result (λ r. r.store.budget ≡ store.entry.budget) }
{
    let team = crew.workers.len().min(claims.len()).min(64);
    let (board, first) = match Board::new(alloc, claims.len() as u32, team as u32 + 1) {
        Ok(made) => made,
        Err(ucq_board::NoMemory) => return Err(NoMemory),
    };
    round_at::<Brand, _, _>(rt, alloc, problem, store, claims, crew, gate, board, first)
}

/// The same at a board with a row for each claim, whose first seat has one to spare for each worker.
fn round_at<'p, 'l, T: Task + Send + Sync, R: Threads + Wait + Sync, G: Gate + Sync>(
    rt: &R,
    alloc: Global,
    problem: &IndexedProblem<'p>,
    store: Store<'p>,
    claims: &[Claim],
    crew: &mut Crew<'l>,
    gate: &G,
    board: Board,
    first: Seat,
) -> Result<Rested<'p>, NoMemory>
    requires of_task { problem.now ≡ T.problem }
    requires problem { store.problem ≡ T.problem }
    requires budget { store.budget ≡ T.budget }
    requires board { board ≡ T.board }
    requires rows { board.rows ≡ length claims.now }
    requires seat { IsSeatOf board first }
    requires spare { first.view.spare + 1 ≡ board.seats }
    ensures problem { IfOk result (λ r. r.store.problem ≡ T.problem) }
    ensures budget { IfOk result (λ r. r.store.budget ≡ T.budget) }
{
    let lock: Mutex<TaskStore<'p, T>> = Mutex::new(TaskStore::new(store));
    let is_wanting = team_at(rt, alloc, problem, &lock, claims, crew, gate, board, first)?;
    let store = lock.into_inner().into_store();
    Ok(Rested { store, is_wanting })
}

/// Lets the crew explore the claimed rows of the store behind the lock, at the board. Answers whether a worker wanted memory.
fn team_at<'p, 'l, T: Task + Send + Sync, R: Threads + Wait + Sync, G: Gate + Sync>(
    rt: &R,
    alloc: Global,
    problem: &IndexedProblem<'p>,
    lock: &Mutex<TaskStore<'p, T>>,
    claims: &[Claim],
    crew: &mut Crew<'l>,
    gate: &G,
    board: Board,
    first: Seat,
) -> Result<bool, NoMemory>
    requires of_task { problem.now ≡ T.problem }
    requires board { board ≡ T.board }
    requires rows { board.rows ≡ length claims.now }
    requires seat { IsSeatOf board first }
    requires spare { first.view.spare + 1 ≡ board.seats }
{
    let mut first = first;
    let round = Round {
        problem,
        store: lock,
        claims,
        board: &board,
        gate,
    };
    match work_seated(rt, alloc, &round, &mut first, &mut crew.workers)? {
        Some(is_wanting) => {
            let drawn = board.close(first).drawn();
            crew.drawn = crew.drawn.saturating_add(u64::from(drawn));
            Ok(is_wanting)
        }
        None => Ok(true),
    }
}

/// Seats as many workers at the round's board as its first seat has to spare, lets them explore what they draw, and joins
/// their seats. Answers whether one of them wanted memory, or nothing where there was none to begin, and the seats are gone.
fn work_seated<'r, 'p, 'l, T: Task + Send + Sync, R: Threads + Wait + Sync, G: Gate + Sync>(
    rt: &R,
    alloc: Global,
    round: &Round<'r, 'p, T, G>,
    first: &mut Seat,
    workers: &mut Vec<Worker<'l>>,
) -> Result<Option<bool>, NoMemory>
    requires seat { IsSeatOf round.now.board.now first.old }
    ensures seat { IsSeatOf round.now.board.now first.new }
    ensures spare { IfOk result (λ ended.
        IfSome ended (λ _. first.new.view.spare ≡ first.old.view.spare)) }
{
    let jobs = seat_team::<T>(alloc, round.board, first, workers)?;
    let Ok(jobs) = work_all(rt, alloc, round, jobs) else {
        return Ok(None);
    };
    Ok(Some(rise_all(round.board, first, workers, jobs)?))
}

/// Lets each worker explore what its seat draws, in a thread of its own where one can be made.
fn work_all<'r, 'p, 'l, T: Task + Send + Sync, R: Threads + Wait + Sync, G: Gate + Sync>(
    rt: &R,
    alloc: Global,
    round: &Round<'r, 'p, T, G>,
    jobs: Vec<Job<'l, T>>,
) -> Result<Vec<Job<'l, T>>, AllocError>
    ensures { IfOk result (λ ended. vec_len ended ≡ vec_len jobs.entry) }
{
    thread::map_vec(rt, jobs, &|job: Job<T>| work_at(rt, alloc, round, job))
}

/// Lets a worker explore what its seat draws.
fn work_at<'r, 'p, 'l, R: Wait, T: Task, G: Gate>(
    rt: &R,
    alloc: Global,
    round: &Round<'r, 'p, T, G>,
    job: Job<'l, T>,
) -> Job<'l, T> {
    let Job {
        mut worker,
        mut seat,
        task,
    } = job;
    worker.work(rt, alloc, round, &mut seat);
    Job { worker, seat, task }
}

/// Seats as many of the workers at the task's board as its first seat has to spare, or all where there are fewer.
fn seat_team<'l, T: Task>(
    alloc: Global,
    board: &Board,
    first: &mut Seat,
    workers: &mut Vec<Worker<'l>>,
) -> Result<Vec<Job<'l, T>>, NoMemory>
    requires task { board.now ≡ T.board }
    requires board { IsSeatOf board.now first.old }
    ensures count { IfOk result (λ jobs.
        first.new.view.spare + vec_len jobs ≡ first.old.view.spare) }
    ensures first { IsSeatOf board.now first.new }
{
    let team = first.spare();
    let mut jobs = Vec::with_capacity(alloc, team as usize)?;
    for _ in 0..team {
        let Some(worker) = workers.pop() else {
            break;
        };
        let seat = board.split(first);
        let job = Job {
            worker,
            seat,
            task: PhantomData,
        };
        jobs.push(job)?;
    }
    Ok(jobs)
}

/// Joins the seats into the first, and gives the workers back. Answers whether one of them wanted memory.
fn rise_all<'l, T: Task>(
    board: &Board,
    first: &mut Seat,
    workers: &mut Vec<Worker<'l>>,
    jobs: Vec<Job<'l, T>>,
) -> Result<bool, NoMemory>
    requires task { board.now ≡ T.board }
    requires board { IsSeatOf board.now first.old }
    ensures count { IfOk result (λ _.
        first.new.view.spare ≡ first.old.view.spare + vec_len jobs.entry) }
    ensures first { IsSeatOf board.now first.new }
{
    let mut is_wanting = false;
    for job in jobs {
        let Job { worker, seat, .. } = job;
        is_wanting = is_wanting || worker.wants_memory();
        board.join(first, seat);
        workers.push(worker)?;
    }
    Ok(is_wanting)
}

/// Where too many claims were given, which no run lives to see, the problem is solved anew, alone. Else what is left is done.
fn after_round<'p>(
    alloc: Global,
    space: &mut HomSpace,
    problem: &IndexedProblem<'p>,
    rested: Rested<'p>,
) -> Result<Stage<'p>, NoMemory>
    requires problem { rested.store.problem ≡ problem.now }
    requires some { 0 < rested.store.budget }
    requires small { rested.store.budget ≤ ROWS }
    requires clear { IsClear space.old }
    ensures stage { IfOk result (IsStage problem.now rested.entry.store.budget) }
    ensures clear { IsClear space.new }
{
    let Rested { store, is_wanting } = rested;
    if store.claims() >= CLAIMS {
        let budget = store.budget();
        return Ok(Stage::Ended(alone(alloc, space, problem.problem(), budget)?));
    }
    open_again(alloc, space, problem, store, is_wanting)
}

/// Opens the rows that are still claimed, and raises the level where none is open. Where memory was wanting the caller goes
/// on alone.
fn open_again<'p>(
    alloc: Global,
    space: &mut HomSpace,
    problem: &IndexedProblem<'p>,
    store: Store<'p>,
    is_wanting: bool,
) -> Result<Stage<'p>, NoMemory>
    requires problem { store.problem ≡ problem.now }
    requires small { store.budget ≤ ROWS }
    requires claims { store.claims < 2 ^ 63 }
    requires clear { IsClear space.old }
    ensures stage { IfOk result (IsStage problem.now store.entry.budget) }
    ensures clear { IsClear space.new }
{
    let mut store = store;
    store.reopen();
    if is_wanting && store.cut().is_none() {
        return Ok(Stage::Ended(go_on(alloc, space, store, problem)?));
    }
    Ok(stage_of(store))
}

/// Where a rewriting stands without claims: it ended, or there are rows to explore, of the next level where none is open.
fn stage_of<'p>(mut store: Store<'p>) -> Stage<'p>
    ensures { IsStage store.entry.problem store.entry.budget result }
{
    if store.cut().is_some() {
        return Stage::Ended(store);
    }
    if store.next_level() || !store.is_finished() {
        Stage::Going(store)
    } else {
        Stage::Ended(store)
    }
}
