//! Rows of queries, live and dead: a new row makes those dead that it covers, and none is added that a live one covers.
#![tactic(auto)]

ghost use Rattle.std.specs.Prelude.{◌≡◌, ◌+◌, ◌*◌, ◌<◌, ◌≤◌, ◌++◌, ◌∷◌, [], length, IfOk, IsTrue, ◌↔◌, vec_len};
ghost use Rattle.ucq_terms.specs.declared.TheConstants.{ROWS};
ghost use Rattle.std.specs.Vec.{vec_capacity};
ghost use Rattle.ucq_terms.specs.Homomorphism.{Covers};
ghost use Rattle.ucq_terms.specs.Query.{IsStored};
ghost use Rattle.ucq_hom.specs.Space.{IsClear};
ghost use Rattle.ucq_hom.specs.Signature.{signature_of};
ghost use Rattle.ucq_antichain.specs.Rows.{row_at, query_at, live_queries, IsLiveAt};
ghost use Rattle.ucq_antichain.specs.inner.Walks.{IsIndexOf, IsBest, NoneEarlier, NoneBeside, DiesAt, IsPrunedFrom};
ghost use Rattle.ucq_antichain.specs.Calls.{IsCoverIn, MayDie, IsPruned, DoesAdd};

mod bits;
mod chains;
mod index;
mod marked;
mod row_set;
mod row_sets;

use bits::next_bit;
use chains::{NO_PAIR, pair};
use index::Index;
use marked::Marked;
use std::alloc::Global;
use std::marker::Model;
use ucq_hom::{HomSpace, Signature, covers};
use ucq_terms::{NoMemory, Query};

/// A query, live or dead.
#[derive(Drop)]
pub struct Row {
    pub query: Query,
    pub live: bool,
}

/// Up to `budget` rows, in the order in which they were added. Contracts see it as the budget and the list of rows.
#[derive(Drop)]
pub struct Antichain {
    budget: u32,
    rows: Vec<Row>,
    // the signatures of the rows, and the rows by their marks
    index: Index,
    // empty, with room for all rows, so that `into_live` takes no memory
    room: Vec<Query>,
}

impl Model for Antichain {
    ghost use Rattle.std.specs.Prelude.{◌≡◌, ◌*◌, ◌≤◌, [], length};
    ghost use Rattle.ucq_terms.specs.declared.TheConstants.{ROWS};
    ghost use Rattle.std.specs.Vec.{vec_capacity};
    ghost use Rattle.ucq_antichain.specs.Rows.{AntichainValue};
    ghost use Rattle.ucq_antichain.specs.inner.Walks.{IsIndexOf};

    ghost Value = { AntichainValue };

    ghost view = { λ a. record { budget = a.budget; rows = a.rows.items } };

    ghost invariant = { λ a.
        (a.budget ≤ ROWS)
        × (length a.rows.items ≤ a.budget)
        × (a.budget ≤ vec_capacity a.rows)
        × (a.room.items ≡ [])
        × (a.budget ≤ vec_capacity a.room)
        × IsIndexOf a.index a.rows.items
        × (a.budget ≤ 4096 * a.index.groups) };
}

/// What became of a query that was to be added.
#[derive(Drop)]
pub enum Added {
    /// This row, the first such, is live and covers the query, which comes back.
    Covered { row: u32, query: Query },
    /// No live row covers the query, which comes back, and there are as many rows as the budget allows.
    Full { query: Query },
    /// The query is this row now, and as many live rows as `pruned` died.
    Added { row: u32, pruned: u32 },
}

impl Antichain {
    /// No row, and room for as many as the budget says, which is 1 to 65,536. No other call takes memory.
    pub fn new(alloc: Global, budget: u32) -> Result<Antichain, NoMemory>
        requires some { 0 < budget }
        requires small { budget ≤ ROWS }
        ensures { IfOk result (λ a. a ≡ record { budget = budget; rows = [] }) }
    {
        let rows = Vec::with_capacity(alloc, budget as usize)?;
        let index = Index::new(alloc, (budget as usize).div_ceil(4096))?;
        let room = Vec::with_capacity(alloc, budget as usize)?;
        Ok(Antichain {
            budget,
            rows,
            index,
            room,
        })
    }

    /// How many rows there are, live and dead.
    pub fn len(&self) -> u32
        ensures len { result ≡ length self.now.rows }
        ensures within { result ≤ self.now.budget }
        ensures few { self.now.budget ≤ ROWS }
    {
        self.rows.len() as u32
    }

    /// The most rows that there may be.
    pub fn budget(&self) -> u32
        ensures budget { result ≡ self.now.budget }
        ensures small { result ≤ ROWS }
    {
        self.budget
    }

    /// The query of a row.
    pub fn query(&self, row: u32) -> &Query
        requires { row < length self.now.rows }
        ensures { result.now ≡ query_at self.now.rows row }
    {
        let row = &self.rows[row as usize];
        &row.query
    }

    /// Whether a row is live.
    pub fn is_live(&self, row: u32) -> bool
        requires { row < length self.now.rows }
        ensures { result ≡ (row_at self.now.rows row).live }
    {
        self.rows[row as usize].live
    }

    /// The first live row that covers the query, or `None` if there is none. Searches a homomorphism for each live row.
    pub fn covered(&self, space: &mut HomSpace, query: &Query) -> Option<u32>
        ensures cover { IsCoverIn self.now.rows query.now result }
        ensures clear { IsClear space.new }
    {
        let marked = Marked::of(query);
        first_cover(space, self.rows.as_slice(), &self.index, query, &marked)
    }

    /// Adds the query as the last row, live, where no live row covers it and there is room, and makes the live rows dead
    /// that it covers. Searches up to two homomorphisms for each live row.
    pub fn add(&mut self, space: &mut HomSpace, query: Query) -> Added
        ensures does { DoesAdd self.old query result self.new }
        ensures stored { IsStored query }
        ensures clear { IsClear space.new }
    {
        let marked = Marked::of(&query);
        let covered = first_cover(space, self.rows.as_slice(), &self.index, &query, &marked);
        if let Some(row) = covered {
            return Added::Covered { row, query };
        }
        if self.rows.len() == self.budget as usize {
            return Added::Full { query };
        }
        let pruned = prune(
            space,
            self.rows.as_mut_slice(),
            &mut self.index,
            &query,
            &marked,
        );
        let row = self.rows.len() as u32;
        push_within(&mut self.rows, Row { query, live: true });
        self.index.push(&marked);
        Added::Added { row, pruned }
    }

    /// The queries of the live rows, in order.
    pub fn into_live(self) -> Vec<Query>
        ensures live { result.items ≡ live_queries self.rows }
        ensures few { vec_len result ≤ ROWS }
    {
        let mut live = self.room;
        for row in self.rows {
            keep_live(&mut live, row);
        }
        live
    }
}

// Whether the row is live and covers the query. Its signature is looked at first, since most are told by it. Nothing is left
// in the space.
fn is_cover(
    space: &mut HomSpace,
    rows: &[Row],
    index: &Index,
    row: u32,
    query: &Query,
    marked: &Marked,
) -> bool
    requires index { IsIndexOf index.now rows.now }
    requires marked { marked.now ≡ signature_of query.now }
    requires clear { IsClear space.old }
    ensures covers { IsTrue result
        ↔ (IsLiveAt rows.now row × Covers (query_at rows.now row) query.now) }
    ensures clear { IsClear space.new }
{
    if row as usize >= rows.len() {
        return false;
    }
    if !index.signature(row).may_cover(marked.signature()) {
        return false;
    }
    let kept = &rows[row as usize];
    if !kept.live {
        return false;
    }
    let found = covers(space, &kept.query, query);
    space.clear();
    found
}

// The row if it is before the best, live and covers the query, else the best.
fn better(
    space: &mut HomSpace,
    rows: &[Row],
    index: &Index,
    row: u32,
    query: &Query,
    marked: &Marked,
    best: u32,
) -> u32
    requires index { IsIndexOf index.now rows.now }
    requires marked { marked.now ≡ signature_of query.now }
    requires clear { IsClear space.old }
    requires best { IsBest rows.now query.now best }
    ensures best { IsBest rows.now query.now result }
    ensures earlier { result ≤ best }
    ensures here { IsLiveAt rows.now row → Covers (query_at rows.now row) query.now → result ≤ row }
    ensures clear { IsClear space.new }
{
    if row >= best {
        return best;
    }
    if is_cover(space, rows, index, row, query, marked) {
        return row;
    }
    best
}

// The first live row of a chain from a link on that covers the query, if it is before the best, else the best.
fn best_in_chain(
    space: &mut HomSpace,
    rows: &[Row],
    index: &Index,
    from: u32,
    query: &Query,
    marked: &Marked,
    best: u32,
) -> u32
    requires index { IsIndexOf index.now rows.now }
    requires marked { marked.now ≡ signature_of query.now }
    requires clear { IsClear space.old }
    requires from { from < length index.now.chains.next }
    requires best { IsBest rows.now query.now best }
    ensures best { IsBest rows.now query.now result }
    ensures earlier { result ≤ best }
    ensures none { NoneEarlier rows.now query.now index.now.chains from result }
    ensures clear { IsClear space.new }
{
    let chains = index.chains();
    let mut found = best;
    let mut link = from;
    while link > 0 {
        found = better(space, rows, index, link - 1, query, marked, found);
        link = chains.after(link);
    }
    found
}

// The same of the chains of a mark beside another mark of the query.
fn best_beside(
    space: &mut HomSpace,
    rows: &[Row],
    index: &Index,
    first: u32,
    query: &Query,
    marked: &Marked,
    best: u32,
) -> u32
    requires index { IsIndexOf index.now rows.now }
    requires marked { marked.now ≡ signature_of query.now }
    requires clear { IsClear space.old }
    requires first { first < 128 }
    requires best { IsBest rows.now query.now best }
    ensures best { IsBest rows.now query.now result }
    ensures earlier { result ≤ best }
    ensures none { NoneBeside rows.now query.now index.now.chains marked.now.second first result }
    ensures clear { IsClear space.new }
{
    let chains = index.chains();
    let filled = chains.filled(first, marked.signature().others());
    let mut found = best;
    let mut second = next_bit(filled, 0);
    while second < 128 {
        let from = chains.head(pair(first, second));
        found = best_in_chain(space, rows, index, from, query, marked, found);
        second = next_bit(filled, second + 1);
    }
    found
}

// The first live row that covers the query.
fn first_cover(
    space: &mut HomSpace,
    rows: &[Row],
    index: &Index,
    query: &Query,
    marked: &Marked,
) -> Option<u32>
    requires index { IsIndexOf index.now rows.now }
    requires marked { marked.now ≡ signature_of query.now }
    requires few { length rows.now ≤ ROWS }
    ensures cover { IsCoverIn rows.now query.now result }
    ensures clear { IsClear space.new }
{
    space.clear();
    let none = rows.len() as u32;
    let from = index.chains().head(NO_PAIR);
    let mut best = best_in_chain(space, rows, index, from, query, marked, none);
    for first in marked.marks() {
        best = best_beside(space, rows, index, *first, query, marked, best);
    }
    if best < none { Some(best) } else { None }
}

// Makes the row dead if it is live and the query covers it, and says whether it does. Its signature is looked at first.
fn dies(
    space: &mut HomSpace,
    row: &mut Row,
    signature: &Signature,
    query: &Query,
    marked: &Marked,
) -> bool
    requires row { signature.now ≡ signature_of row.old.query }
    requires marked { marked.now ≡ signature_of query.now }
    requires clear { IsClear space.old }
    ensures dies { MayDie query.now row.old result row.new }
    ensures clear { IsClear space.new }
{
    if !marked.signature().may_cover(signature) || !row.live {
        return false;
    }
    let found = covers(space, query, &row.query);
    space.clear();
    if found {
        row.live = false;
    }
    found
}

// The same for the row at a place, if there is one, which the index then keeps no longer.
fn dies_at(
    space: &mut HomSpace,
    rows: &mut [Row],
    index: &mut Index,
    row: u32,
    query: &Query,
    marked: &Marked,
) -> bool
    requires index { IsIndexOf index.old rows.old }
    requires marked { marked.now ≡ signature_of query.now }
    requires clear { IsClear space.old }
    ensures dies { DiesAt query.now rows.old rows.new row result }
    ensures index { IsIndexOf index.new rows.new }
    ensures groups { index.new.groups ≡ index.old.groups }
    ensures clear { IsClear space.new }
{
    if row as usize >= rows.len() {
        return false;
    }
    let kept = &mut rows[row as usize];
    if !dies(space, kept, index.signature(row), query, marked) {
        return false;
    }
    index.remove(row);
    true
}

// Makes the live rows of a word of 64 dead that the query covers, and counts them.
fn prune_word(
    space: &mut HomSpace,
    rows: &mut [Row],
    index: &mut Index,
    word: u32,
    query: &Query,
    marked: &Marked,
) -> u32
    requires index { IsIndexOf index.old rows.old }
    requires marked { marked.now ≡ signature_of query.now }
    requires few { length rows.old ≤ ROWS }
    requires clear { IsClear space.old }
    requires low { word < 1024 }
    requires word { word < 64 * index.old.groups }
    ensures pruned { IsPrunedFrom query.now rows.old rows.new (64 * word) (64 * word + 64) result }
    ensures index { IsIndexOf index.new rows.new }
    ensures groups { index.new.groups ≡ index.old.groups }
    ensures clear { IsClear space.new }
{
    let among = index.rows(marked, word as usize) as u128;
    let mut pruned = 0;
    let mut bit = next_bit(among, 0);
    while bit < 64 {
        if dies_at(space, rows, index, 64 * word + bit, query, marked) {
            pruned += 1;
        }
        bit = next_bit(among, bit + 1);
    }
    pruned
}

// The same of a group of 64 words.
fn prune_group(
    space: &mut HomSpace,
    rows: &mut [Row],
    index: &mut Index,
    group: usize,
    query: &Query,
    marked: &Marked,
) -> u32
    requires index { IsIndexOf index.old rows.old }
    requires marked { marked.now ≡ signature_of query.now }
    requires few { length rows.old ≤ ROWS }
    requires clear { IsClear space.old }
    requires low { group < 16 }
    requires group { group < index.old.groups }
    ensures pruned { IsPrunedFrom query.now rows.old rows.new (4096 * group) (4096 * group + 4096)
        result }
    ensures index { IsIndexOf index.new rows.new }
    ensures groups { index.new.groups ≡ index.old.groups }
    ensures clear { IsClear space.new }
{
    let among = index.words(marked, group) as u128;
    let mut pruned = 0;
    let mut bit = next_bit(among, 0);
    while bit < 64 {
        pruned += prune_word(space, rows, index, 64 * group as u32 + bit, query, marked);
        bit = next_bit(among, bit + 1);
    }
    pruned
}

// Makes the live rows dead that the query covers, and counts them.
fn prune(
    space: &mut HomSpace,
    rows: &mut [Row],
    index: &mut Index,
    query: &Query,
    marked: &Marked,
) -> u32
    requires index { IsIndexOf index.old rows.old }
    requires marked { marked.now ≡ signature_of query.now }
    requires few { length rows.old ≤ ROWS }
    requires clear { IsClear space.old }
    ensures pruned { IsPruned query.now rows.old rows.new result }
    ensures index { IsIndexOf index.new rows.new }
    ensures groups { index.new.groups ≡ index.old.groups }
    ensures clear { IsClear space.new }
{
    let mut pruned = 0;
    for group in 0..index.groups() {
        pruned += prune_group(space, rows, index, group, query, marked);
    }
    pruned
}

// Adds an item for which there is room.
fn push_within<T: Drop>(items: &mut Vec<T>, item: T)
    requires { vec_len items.old < vec_capacity items.old }
    ensures items { items.new.items ≡ items.old.items ++ item ∷ [] }
    ensures len { vec_len items.new ≡ vec_len items.old + 1 }
    ensures capacity { vec_capacity items.old ≤ vec_capacity items.new }
{
    let _ = items.push(item);
}

// Keeps the query of a live row, for which there is room.
fn keep_live(live: &mut Vec<Query>, row: Row)
    requires { vec_len live.old < vec_capacity live.old }
    ensures items { live.new.items ≡ live.old.items ++ live_queries (row ∷ []) }
    ensures len { vec_len live.new ≤ vec_len live.old + 1 }
    ensures capacity { vec_capacity live.old ≤ vec_capacity live.new }
{
    if row.live {
        let _ = live.push(row.query);
    }
}
