//! A log of rows and their queries that only grows, and that threads read without a lock.
//!
//! What was added stays as it is, so an entry tells its row and its query at any time and on any thread. A thread that
//! keeps the entries that it added itself is sure to see each of these; those of others it sees as they come.
#![tactic(auto)]

ghost use Rattle.std.specs.Prelude.{◌≡◌, ◌≤◌, ◌↔◌, All, length, IfOk, IfErr, IfSome, IsTrue};
ghost use Rattle.ucq_terms.specs.declared.TheConstants.{ROWS};
ghost use Rattle.ucq_terms.specs.Homomorphism.{Covers};
ghost use Rattle.ucq_hom.specs.Space.{IsClear};
ghost use Rattle.ucq_hom.specs.Signature.{signature_of};
ghost use Rattle.ucq_log.specs.Log.{IsEntryOf, Holds, IsCover, IsCoverIn, IsSeen};

pub mod laws;
mod notes;

use boxcar::Pushed;
use notes::Noted;
use std::alloc::Global;
use std::marker::Model;
use std::sync::Wait;
use ucq_hom::{HomSpace, Signature};
use ucq_terms::{NoMemory, Query};

// How many of the last entries of a log are looked at for a caller who didn't add them. What was added longer ago has most
// likely been seen by the store already.
const NEWEST: usize = 256;

/// Rows and their queries, each at a place of its own. Contracts see it as what tells it from other logs.
#[derive(Drop)]
pub struct Log {
    vec: boxcar::Vec<Noted>,
}

impl Model for Log {
    ghost use Rattle.boxcar.specs.Table.{Shelves};

    ghost Value = { Shelves };

    ghost view = { λ l. l.vec };
}

/// What shows that a log has a row and its query at a place. Contracts see it as these three and the mark of its log.
#[derive(Drop)]
pub struct Entry {
    pushed: Pushed<Noted>,
    // that of the query, so that most entries are passed over without a look at the log
    signature: Signature,
}

impl Model for Entry {
    ghost use Rattle.std.specs.Prelude.{◌≡◌};
    ghost use Rattle.ucq_log.specs.Notes.{Placed};
    ghost use Rattle.ucq_hom.specs.Signature.{signature_of};

    ghost Value = { Placed };

    ghost view = { λ e.
        record {
          place = e.pushed.index;
          row = e.pushed.value.row;
          query = e.pushed.value.query;
          mark = record { part = e.pushed.bucket; name = e.pushed.row };
        } };

    ghost invariant = { λ e. e.signature ≡ signature_of e.pushed.value.query };
}

/// Want of memory for an entry. The query comes back.
#[derive(Drop)]
pub struct Unkept {
    pub query: Query,
}

/// An entry that covers a query.
#[derive(Drop)]
pub enum Seen {
    /// The one at this place of the caller's own entries, which is the first such.
    Own { place: u32 },
    /// None of the caller's own entries covers the query, and this one of the log does.
    Other { entry: Entry },
}

impl Log {
    /// A log with no entry.
    pub fn new(alloc: Global) -> Result<Log, NoMemory> {
        let vec = boxcar::Vec::new(alloc)?;
        Ok(Log { vec })
    }

    /// Adds a row and its query. `Unkept` is want of memory. It may wait for another thread that makes room in the log at
    /// that moment.
    pub fn add<R: Wait>(&self, rt: &R, row: u32, query: Query) -> Result<Entry, Unkept>
        ensures held { IfOk result (λ e. Holds self.now row query e) }
        ensures back { IfErr result (λ u. u.query ≡ query) }
    {
        let noted = Noted::new(row, query);
        let signature = noted.signature();
        match self.vec.push_shown(rt, noted) {
            Ok(pushed) => Ok(Entry { pushed, signature }),
            Err(noted) => Err(Unkept {
                query: noted.into_query(),
            }),
        }
    }

    /// The row that was added, whatever was added since.
    pub fn row(&self, entry: &Entry) -> u32
        requires { IsEntryOf self.now entry.now }
        ensures { result ≡ entry.now.row }
    {
        self.vec.value(&entry.pushed).row()
    }

    /// The query that was added, whatever was added since.
    pub fn value(&self, entry: &Entry) -> &Query
        requires { IsEntryOf self.now entry.now }
        ensures { result.now ≡ entry.now.query }
    {
        self.vec.value(&entry.pushed).query()
    }

    /// Looks for an entry whose query covers the given one: first among the caller's own entries, at most 65,536 of this
    /// log, in order, and then among the newest of the log, from the last one back. `None` says that none of the own ones
    /// covers it; another one may have been missed. Takes no memory, and searches up to one homomorphism for each entry.
    pub fn seen(&self, space: &mut HomSpace, own: &[Entry], query: &Query) -> Option<Seen>
        requires few { length own.now ≤ ROWS }
        requires ours { All (λ e. IsEntryOf self.now e) own.now }
        ensures seen { IsSeen self.now own.now query.now result }
        ensures clear { IsClear space.new }
    {
        space.clear();
        let signature = Signature::of(query);
        if let Some(place) = self.first_cover(space, own, query, &signature) {
            return Some(Seen::Own { place });
        }
        match self.newest_cover(space, own, query, &signature) {
            Some(entry) => Some(Seen::Other { entry }),
            None => None,
        }
    }

    // The first of the entries whose query covers the given one.
    fn first_cover(
        &self,
        space: &mut HomSpace,
        entries: &[Entry],
        query: &Query,
        signature: &Signature,
    ) -> Option<u32>
        requires few { length entries.now ≤ ROWS }
        requires ours { All (λ e. IsEntryOf self.now e) entries.now }
        requires signature { signature.now ≡ signature_of query.now }
        requires clear { IsClear space.old }
        ensures cover { IsCoverIn entries.now query.now result }
        ensures clear { IsClear space.new }
    {
        for (place, entry) in entries.iter().enumerate() {
            if self.is_cover(space, entry, query, signature) {
                return Some(place as u32);
            }
        }
        None
    }

    // Whether the entry's query covers the given one.
    fn is_cover(
        &self,
        space: &mut HomSpace,
        entry: &Entry,
        query: &Query,
        signature: &Signature,
    ) -> bool
        requires ours { IsEntryOf self.now entry.now }
        requires signature { signature.now ≡ signature_of query.now }
        requires clear { IsClear space.old }
        ensures covers { IsTrue result ↔ Covers entry.now.query query.now }
        ensures clear { IsClear space.new }
    {
        if !entry.signature.may_cover(signature) {
            return false;
        }
        self.vec
            .value(&entry.pushed)
            .does_cover(space, query, signature)
    }

    // An entry whose query covers the given one, the newest that is found among the last `NEWEST`. The own entries are passed
    // over where they stand in order of place, as a caller that adds one after another has them.
    fn newest_cover(
        &self,
        space: &mut HomSpace,
        own: &[Entry],
        query: &Query,
        signature: &Signature,
    ) -> Option<Entry>
        requires signature { signature.now ≡ signature_of query.now }
        requires clear { IsClear space.old }
        ensures cover { IfSome result (λ e. IsCover self.now query.now e) }
        ensures clear { IsClear space.new }
    {
        let mut left = own.len();
        let count = self.vec.count();
        for place in (count.saturating_sub(NEWEST)..count).rev() {
            if left > 0 && own[left - 1].place() == place as u64 {
                left -= 1;
            } else if let Some(entry) = self.cover_at(space, place, query, signature) {
                return Some(entry);
            }
        }
        None
    }

    // The entry at the place, if there is one now and its query covers the given one.
    fn cover_at(
        &self,
        space: &mut HomSpace,
        place: usize,
        query: &Query,
        signature: &Signature,
    ) -> Option<Entry>
        requires signature { signature.now ≡ signature_of query.now }
        requires clear { IsClear space.old }
        ensures cover { IfSome result (λ e. IsCover self.now query.now e) }
        ensures clear { IsClear space.new }
    {
        let Some(pushed) = self.vec.witness(place) else {
            return None;
        };
        let noted = self.vec.value(&pushed);
        if noted.does_cover(space, query, signature) {
            let signature = noted.signature();
            return Some(Entry { pushed, signature });
        }
        None
    }
}

impl Entry {
    /// The place in its log. Entries of one place of one log agree, as `laws::entries_agree` says.
    pub fn place(&self) -> u64
        ensures { result ≡ self.now.place }
    {
        self.pushed.index() as u64
    }
}
