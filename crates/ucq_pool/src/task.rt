//! The store of a round under its lock.
ghost use Rattle.std.specs.Prelude.{◌≡◌, false};
ghost use Rattle.ucq_hom.specs.Space.{IsClear};
ghost use Rattle.ucq_store.specs.Calls.{DoesPublish};

use std::marker::{Brand, PhantomData};
use ucq_hom::HomSpace;
use ucq_store::{Claim, Published, Report, Store};

/// What a round works on, and the board that hands out its rows.
pub(crate) trait Task {
    ghost use Rattle.std.specs.Prelude.{ℕ};
    ghost use Rattle.ucq_terms.specs.Syntax.{Problem};
    ghost use Rattle.ucq_board.specs.Values.{BoardValue};

    ghost problem: { Problem };

    ghost budget: { ℕ };

    ghost board: { BoardValue };
}

impl Task for Brand {
    ghost use Rattle.std.specs.Prelude.{[]};

    ghost problem = { record { rules = []; query = record { answers = []; atoms = [] } } };

    ghost budget = { 0 };

    ghost board = { record {
      table = record {
        words = 0;
        slots = 0;
        views_name = 0;
        atom = 0;
        block = 0;
        offset = 0;
        slot_names = [];
      };
      rows = 0;
      seats = 0;
    } };
}

/// A store of the task's problem and budget. So a lock round it holds none of another task, and a worker's report needs no
/// comparison of problems.
#[derive(Drop)]
pub(crate) struct TaskStore<'p, T: Task> {
    store: Store<'p>,
    task: PhantomData<T>,
    ghost problem: { store.problem ≡ T.problem },
    ghost budget: { store.budget ≡ T.budget },
}

impl<'p, T: Task> TaskStore<'p, T> {
    /// The store, which is of the task.
    pub(crate) fn new(store: Store<'p>) -> TaskStore<'p, T>
        requires problem { store.problem ≡ T.problem }
        requires budget { store.budget ≡ T.budget }
        ensures { result.store ≡ store.entry }
    {
        TaskStore {
            store,
            task: PhantomData,
        }
    }

    /// The store.
    pub(crate) fn store(&self) -> &Store<'p>
        ensures { result.now ≡ self.now.store }
    {
        &self.store
    }

    /// The store, by value.
    pub(crate) fn into_store(self) -> Store<'p>
        ensures store { result ≡ self.entry.store }
        ensures problem { result.problem ≡ T.problem }
        ensures budget { result.budget ≡ T.budget }
    {
        self.store
    }

    /// Gives a claim back.
    pub(crate) fn release(&mut self, claim: Claim) {
        let _ = self.store.release(claim);
    }

    /// Publishes a report on the task's problem.
    pub(crate) fn publish<'q>(
        &mut self,
        space: &mut HomSpace,
        claim: Claim,
        report: &mut Report<'q>,
    ) -> Published
        requires unspent { report.old.spent ≡ false }
        requires problem { report.old.problem ≡ T.problem }
        ensures does { DoesPublish self.old.store claim report.old result self.new.store
            report.new }
        ensures clear { IsClear space.new }
    {
        self.store.publish_own(space, claim, report)
    }
}
