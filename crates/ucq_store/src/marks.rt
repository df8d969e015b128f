//! What a store notes of its rows.
ghost use Rattle.std.specs.Prelude.{◌≡◌, ◌<◌, ◌≤◌, ◌++◌, ◌∷◌, [], ◌↔◌, ℕ, length, IfOk, IsTrue};
ghost use Rattle.ucq_terms.specs.declared.TheConstants.{ROWS};
ghost use Rattle.ucq_antichain.specs.Rows.{IsLiveAt};
ghost use Rattle.ucq_store.specs.Store.{mark_at, IsInWork};
ghost use Rattle.ucq_store.specs.inner.Marks.{with_state_at, NoneOpenBelow, IsSettled, AreSettledBelow};
ghost use Rattle.ucq_store.specs.Changes.{IsReopened, IsRaised, reopened, raised};
ghost use Rattle.ucq_store.specs.Calls.{FindsOpen};

use crate::{Mark, RowState};
use std::alloc::Global;
use std::marker::Model;
use ucq_antichain::Antichain;
use ucq_terms::NoMemory;

/// The marks of rows, in order. Contracts see them, and how many there is room for.
///
/// A walk over them begins where the rows begin that aren't done with, so that all walks of a rewriting together take the
/// time of its rows, and not of its rows at each level.
#[derive(Drop)]
pub(crate) struct Marks {
    items: Vec<Mark>,
    // each row before it is done or skipped
    settled: usize,
    // no row before it is open
    open_from: usize,
}

impl Model for Marks {
    ghost use Rattle.std.specs.Prelude.{◌≤◌, length};
    ghost use Rattle.ucq_terms.specs.declared.TheConstants.{ROWS};
    ghost use Rattle.std.specs.Vec.{vec_capacity};
    ghost use Rattle.ucq_store.specs.inner.Marks.{MarkList, NoneOpenBelow, AreSettledBelow};

    ghost Value = { MarkList };

    ghost view = { λ m. record { items = m.items.items; room = vec_capacity m.items } };

    ghost invariant = { λ m.
        (length m.items.items ≤ ROWS)
        × AreSettledBelow m.items.items m.settled
        × NoneOpenBelow m.items.items m.open_from };
}

impl Marks {
    /// No mark, and room for so many.
    pub(crate) fn with_capacity(alloc: Global, room: u32) -> Result<Marks, NoMemory>
        ensures { IfOk result (λ m. (m.items ≡ []) × (room ≤ m.room)) }
    {
        let items = Vec::with_capacity(alloc, room as usize)?;
        Ok(Marks {
            items,
            settled: 0,
            open_from: 0,
        })
    }

    /// The mark of a row.
    pub(crate) fn of(&self, row: u32) -> Mark
        requires { row < length self.now.items }
        ensures { result ≡ mark_at self.now.items row }
    {
        self.items[row as usize]
    }

    /// Adds a mark for which there is room.
    pub(crate) fn push(&mut self, mark: Mark)
        requires room { length self.old.items < self.old.room }
        requires few { length self.old.items < ROWS }
        ensures items { self.new.items ≡ self.old.items ++ mark ∷ [] }
        ensures room { self.old.room ≤ self.new.room }
    {
        let row = self.items.len();
        self.settled = self.settled.min(row);
        self.open_from = self.open_from.min(row);
        let _ = self.items.push(mark);
    }

    /// Changes the state of a row.
    pub(crate) fn set_state(&mut self, row: u32, state: RowState)
        requires { row < length self.old.items }
        ensures { self.new ≡ record self.old { items = with_state_at self.old.items row state } }
    {
        let row = row as usize;
        self.settled = self.settled.min(row);
        self.open_from = self.open_from.min(row);
        self.items[row].state = state;
    }

    /// The first open row. The search begins where the last one ended.
    pub(crate) fn first_open(&mut self) -> Option<u32>
        ensures found { FindsOpen self.old.items result }
        ensures same { self.new ≡ self.old }
    {
        let found = first_open_from(self.items.as_slice(), self.open_from);
        self.open_from = match found {
            Some(row) => row as usize,
            None => self.items.len(),
        };
        found
    }

    /// Makes every claimed row open.
    pub(crate) fn reopen(&mut self)
        ensures items { IsReopened self.old.items self.new.items }
        ensures room { self.new.room ≡ self.old.room }
    {
        self.open_from = self.settled;
        reopen_from(self.items.as_mut_slice(), self.settled);
    }

    /// Whether a row is open or claimed.
    pub(crate) fn is_any_in_work(&self) -> bool
        ensures { IsTrue result
            ↔ ((row : ℕ)
            × (row < length self.now.items)
            × IsInWork (mark_at self.now.items row).state) }
    {
        for row in self.settled..self.items.len() {
            if is_in_work(self.items[row].state) {
                return true;
            }
        }
        false
    }

    /// Whether a live row waits.
    pub(crate) fn does_any_wait(&self, antichain: &Antichain) -> bool
        requires { length self.now.items ≡ length antichain.now.rows }
        ensures { IsTrue result
            ↔ ((row : ℕ)
            × (row < length antichain.now.rows)
            × IsLiveAt antichain.now.rows row
            × ((mark_at self.now.items row).state ≡ RowState.Waiting)) }
    {
        for row in self.settled..self.items.len() {
            if self.items[row].state == RowState::Waiting && antichain.is_live(row as u32) {
                return true;
            }
        }
        false
    }

    /// Opens live waiting rows and skips dead ones.
    pub(crate) fn raise(&mut self, antichain: &Antichain)
        requires { length self.old.items ≡ length antichain.now.rows }
        ensures items { IsRaised antichain.now.rows self.old.items self.new.items }
        ensures room { self.new.room ≡ self.old.room }
    {
        self.settled = first_unsettled(self.items.as_slice(), self.settled);
        self.open_from = self.settled;
        raise_from(self.items.as_mut_slice(), self.settled, antichain);
    }
}

// The first open row, where none before `from` is open.
fn first_open_from(marks: &[Mark], from: usize) -> Option<u32>
    requires few { length marks.now ≤ ROWS }
    requires none { NoneOpenBelow marks.now from }
    ensures { FindsOpen marks.now result }
{
    for row in from..marks.len() {
        if marks[row].state == RowState::Open {
            return Some(row as u32);
        }
    }
    None
}

// Makes the claimed rows open, all of which stand from a row on.
fn reopen_from(marks: &mut [Mark], from: usize)
    requires { AreSettledBelow marks.old from }
    ensures { IsReopened marks.old marks.new }
{
    for row in from..marks.len() {
        marks[row].state = reopened(marks[row].state);
    }
}

// Opens live waiting rows and skips dead ones, all of which stand from a row on.
fn raise_from(marks: &mut [Mark], from: usize, antichain: &Antichain)
    requires settled { AreSettledBelow marks.old from }
    requires length { length marks.old ≡ length antichain.now.rows }
    requires few { length marks.old ≤ ROWS }
    ensures { IsRaised antichain.now.rows marks.old marks.new }
{
    for row in from..marks.len() {
        marks[row].state = raised(marks[row].state, antichain.is_live(row as u32));
    }
}

// A row before which each one is settled, from such a row on.
fn first_unsettled(marks: &[Mark], from: usize) -> usize
    requires { AreSettledBelow marks.now from }
    ensures { AreSettledBelow marks.now result }
{
    for row in from..marks.len() {
        if !is_settled(marks[row].state) {
            return row;
        }
    }
    marks.len()
}

fn is_in_work(state: RowState) -> bool
    ensures { IsTrue result ↔ IsInWork state }
{
    matches!(state, RowState::Open | RowState::Claimed { number: _ })
}

fn is_settled(state: RowState) -> bool
    ensures { IsTrue result ↔ IsSettled state }
{
    matches!(state, RowState::Done | RowState::Skipped)
}

fn reopened(state: RowState) -> RowState
    ensures { result ≡ reopened state }
{
    match state {
        RowState::Claimed { number: _ } => RowState::Open,
        other => other,
    }
}

fn raised(state: RowState, is_live: bool) -> RowState
    ensures { result ≡ raised state is_live }
{
    match state {
        RowState::Waiting if is_live => RowState::Open,
        RowState::Waiting => RowState::Skipped,
        other => other,
    }
}

pub(crate) fn is_claimed_under(state: RowState, number: u64) -> bool
    ensures { IsTrue result ↔ (state ≡ RowState.Claimed number) }
{
    match state {
        RowState::Claimed { number: given } => given == number,
        _ => false,
    }
}
