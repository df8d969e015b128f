//! A worker in a round.
ghost use Rattle.std.specs.Prelude.{◌≡◌, length};
ghost use Rattle.ucq_hom.specs.Space.{IsClear};
ghost use Rattle.ucq_pool.specs.inner.Shared.{IsAtWork};

use crate::indexed::IndexedProblem;
use crate::own::Own;
use crate::rewritings::{Proposals, report_on};
use crate::task::{Task, TaskStore};
use std::alloc::Global;
use std::sync::{Mutex, Wait};
use ucq_board::{Board, Seat};
use ucq_hom::HomSpace;
use ucq_log::Log;
use ucq_outside::Gate;
use ucq_store::{Claim, Published};
use ucq_terms::NoMemory;

/// What the workers of a round share: the task's problem, its store behind a lock, the claims of the rows that were open, and
/// the task's board, which has a row for each of these claims.
#[derive(Drop)]
pub(crate) struct Round<'r, 'p, T: Task, G> {
    pub problem: &'r IndexedProblem<'p>,
    pub store: &'r Mutex<TaskStore<'p, T>>,
    pub claims: &'r [Claim],
    pub board: &'r Board,
    pub gate: &'r G,
    ghost of_task: { problem.now ≡ T.problem },
    ghost at_board: { board.now ≡ T.board },
    ghost rows: { board.now.rows ≡ length claims.now },
}

/// A worker: its number, the room for its searches, its entries of the log, how many candidates it gave with evidence, and
/// whether it ever wanted memory.
#[derive(Drop)]
pub(crate) struct Worker<'l> {
    number: u32,
    space: HomSpace,
    own: Own<'l>,
    seen: u64,
    wants_memory: bool,
}

impl<'l> Worker<'l> {
    /// A worker that has added nothing and wants no memory yet.
    pub(crate) fn new(alloc: Global, number: u32, log: &'l Log) -> Result<Worker<'l>, NoMemory> {
        let space = HomSpace::new(alloc)?;
        Ok(Worker {
            number,
            space,
            own: Own::new(alloc, log),
            seen: 0,
            wants_memory: false,
        })
    }

    /// How many candidates it gave with evidence.
    pub(crate) fn seen(&self) -> u64 {
        self.seen
    }

    /// Whether the worker ever wanted memory.
    pub(crate) fn wants_memory(&self) -> bool {
        self.wants_memory
    }

    /// Explores the rows whose claims its seat draws, until none is left or there is a stop. It stops all where the store is
    /// cut, and where it finds no memory.
    pub(crate) fn work<'r, 'p, R: Wait, T: Task, G: Gate>(
        &mut self,
        rt: &R,
        alloc: Global,
        round: &Round<'r, 'p, T, G>,
        seat: &mut Seat,
    )
        requires { IsAtWork round.now.board.now seat.old }
        ensures { IsAtWork round.now.board.now seat.new }
    {
        self.space.clear();
        for _ in rt.forever() {
            let Some(place) = round.board.draw(seat) else {
                return;
            };
            let claim = round.claims[place as usize];
            match self.explore(rt, alloc, round, claim) {
                Ok(Published::Taken) => round.board.finish(seat, place),
                Ok(Published::Cut) => {
                    round.board.stop(seat);
                    return;
                }
                Ok(Published::Foreign | Published::Strange { state: _ }) => return,
                Err(NoMemory) => {
                    self.wants_memory = true;
                    round.board.stop(seat);
                    return;
                }
            }
        }
    }

    /// Copies the query of a claimed row, rewrites it outside the lock, passes the gate, publishes what was found, and adds
    /// the cores that were placed to the log. Where memory is wanting the claim is given back.
    fn explore<'r, 'p, R: Wait, T: Task, G: Gate>(
        &mut self,
        rt: &R,
        alloc: Global,
        round: &Round<'r, 'p, T, G>,
        claim: Claim,
    ) -> Result<Published, NoMemory>
        requires clear { IsClear self.old.space }
        ensures clear { IsClear self.new.space }
    {
        let query = {
            let held = round.store.lock(rt);
            let store = held.store();
            if claim.row >= store.rows() {
                return Ok(Published::Foreign);
            }
            store.query_of(claim.row).copy()
        };
        let found = match query {
            Ok(query) => report_on(alloc, &mut self.space, round.problem, query, &self.own),
            Err(NoMemory) => Err(NoMemory),
        };
        let Ok((mut report, proposals)) = found else {
            round.store.lock(rt).release(claim);
            return Err(NoMemory);
        };
        let Proposals { copies, seen } = proposals;
        self.seen = self.seen.saturating_add(seen);
        round.gate.pass(self.number, claim.row);
        let published = {
            let mut held = round.store.lock(rt);
            held.publish(&mut self.space, claim, &mut report)
        };
        if let Published::Taken = published {
            self.own.add_placed(rt, &report, copies);
        }
        Ok(published)
    }
}
