//! What a worker knows of the log.
ghost use Rattle.std.specs.Prelude.{◌≡◌, IfSome};
ghost use Rattle.ucq_hom.specs.Space.{IsClear};
ghost use Rattle.ucq_log.specs.Log.{IsEntryOf};
ghost use Rattle.ucq_store.specs.Candidates.{HoldsCore};
ghost use Rattle.ucq_terms.specs.Homomorphism.{Covers};

use crate::rewritings::{Proposals, Propose};
use std::alloc::Global;
use std::marker::Model;
use std::sync::Wait;
use ucq_hom::HomSpace;
use ucq_log::{Entry, Log, Seen};
use ucq_store::{Candidate, Report};
use ucq_terms::{NoMemory, Query, ROWS};

// How many of its last entries a worker looks at. The store, which finds rows by an index, tells of what was added longer ago.
const NEWEST: usize = 256;

/// A log, and the entries that one worker added to it.
#[derive(Drop)]
pub(crate) struct Own<'l> {
    log: &'l Log,
    entries: Vec<Entry>,
}

impl<'l> Model for Own<'l> {
    ghost use Rattle.std.specs.Prelude.{◌≤◌, All, List, length};
    ghost use Rattle.ucq_terms.specs.declared.TheConstants.{ROWS};
    ghost use Rattle.ucq_log.specs.Log.{IsEntryOf};
    ghost use Rattle.ucq_log.specs.Notes.{Placed};

    ghost Value = { List Placed };

    ghost view = { λ o. o.entries.items };

    ghost invariant = { λ o.
        All (λ e. IsEntryOf o.log.now e) o.entries.items × (length o.entries.items ≤ ROWS) };
}

impl<'l> Own<'l> {
    /// None yet.
    pub(crate) fn new(alloc: Global, log: &'l Log) -> Own<'l> {
        let entries = Vec::new(alloc);
        Own { log, entries }
    }

    /// The row and the query of an entry that covers the core, if one is found among the newest.
    fn seen(&self, space: &mut HomSpace, core: &Query) -> Option<(u32, &'l Query)>
        ensures covers { IfSome result (λ found. Covers found.1.now core.now) }
        ensures clear { IsClear space.new }
    {
        let newest = &self.entries[self.entries.len().saturating_sub(NEWEST)..];
        match self.log.seen(space, newest, core)? {
            Seen::Own { place } => Some(told(self.log, &newest[place as usize])),
            Seen::Other { entry } => Some(told(self.log, &entry)),
        }
    }

    /// Adds a row and its query to the log and keeps the entry, where there is memory for it and few enough are kept.
    fn add<R: Wait>(&mut self, rt: &R, row: u32, query: Query) {
        if self.entries.len() >= ROWS as usize || self.entries.reserve(1).is_err() {
            return;
        }
        if let Ok(entry) = self.log.add(rt, row, query) {
            let _ = self.entries.push(entry);
        }
    }

    /// Adds the cores that a publication placed, each with its row.
    pub(crate) fn add_placed<'q, R: Wait>(
        &mut self,
        rt: &R,
        report: &Report<'q>,
        copies: Vec<Option<Query>>,
    ) {
        let mut place: u32 = 0;
        for copy in copies {
            if place == u32::MAX || place as usize >= report.candidates() {
                return;
            }
            if let (Some(row), Some(query)) = (report.placed(place), copy) {
                self.add(rt, row, query);
            }
            place += 1;
        }
    }
}

/// The row and the query of an entry.
fn told<'l>(log: &'l Log, entry: &Entry) -> (u32, &'l Query)
    requires { IsEntryOf log.now entry.now }
    ensures { (result.0 ≡ entry.now.row) × (result.1.now ≡ entry.now.query) }
{
    (log.row(entry), log.value(entry))
}

impl<'l> Propose<'l> for Own<'l> {
    // With evidence where the log has it. Of each other core a copy is kept, where there is memory for one.
    fn propose(
        &self,
        space: &mut HomSpace,
        core: Query,
        proposals: &mut Proposals,
    ) -> Result<Candidate<'l>, NoMemory> {
        match self.seen(space, &core) {
            Some((row, by)) => {
                proposals.copies.push(None)?;
                proposals.seen = proposals.seen.saturating_add(1);
                Ok(Candidate::known(core, row, by))
            }
            None => {
                proposals.copies.push(core.copy().ok())?;
                Ok(Candidate::plain(core))
            }
        }
    }
}
