//! Boards and their seats.
ghost use Rattle.std.specs.Prelude.{◌≡◌, ◌≤◌, ◌<◌, ◌+◌, ℕ, IfSome, IfOk, true, false, Contains, IsTrue, ◌↔◌, length};
ghost use Rattle.ucq_board.specs.declared.TheConstants.{ROWS, SEATS};
ghost use Rattle.ucq_board.specs.Lists.{AreBelow, AreOnce};
ghost use Rattle.ucq_board.specs.Rule.{fresh};
ghost use Rattle.ucq_board.specs.Steps.{left_of, right_of, both_of, finishing, stopping};
ghost use Rattle.ucq_board.specs.Values.{IsSeatOf, is_done_in};
ghost use Rattle.ucq_board.specs.Calls.{DoesDraw, DoesAskStop, DoesAskRow, MayFinish};

use crate::NoMemory;
use crate::rule::{
    AskingRow, AskingStop, Drawing, Finishing, Joining, Key, Looking, Rule, Splitting, Stopping,
    View,
};
use atomic_table::Table;
use std::alloc::Global;
use std::marker::Model;

// The words of the cursor and of the stop. Those of the rows follow.
const CURSOR: usize = 0;

const STOP: usize = 1;

const FIRST_ROW: usize = 2;

/// A board of rows, numbered from 0 on, which the seats that it has given draw, each once. Contracts see its name and how
/// many rows and seats it has.
#[derive(Drop)]
pub struct Board {
    table: Table<u8, View, Key, Rule, Global>,
    rows: u32,
    seats: u32,
}

impl Model for Board {
    ghost use Rattle.ucq_board.specs.Values.{BoardValue, IsBoard};

    ghost Value = { BoardValue };

    ghost view = { λ b.
        record { table = b.table.shared.table_id; rows = b.rows; seats = b.seats } };

    ghost invariant = { λ b. IsBoard b.table.shared.table_id b.table.shared.key b.rows b.seats };
}

/// A seat at a board, for one thread at a time. Contracts see the name of the board that gave it, and what it knows.
#[derive(Drop)]
pub struct Seat {
    inner: atomic_table::Seat<u8, View>,
    spare: u32,
    ended: bool,
}

impl Model for Seat {
    ghost use Rattle.std.specs.Prelude.{◌≡◌, []};
    ghost use Rattle.ucq_board.specs.Values.{SeatValue, IsSeat};

    ghost Value = { SeatValue };

    ghost view = { λ s. record { table = s.inner.table_id; view = s.inner.me.0 } };

    ghost invariant = { λ s.
        IsSeat s.inner.table_id s.inner.me.0 s.spare s.ended × (s.inner.me.1 ≡ []) };
}

/// What is left of a board that was closed: how many rows were drawn, whether stop was called, and which rows are done.
pub struct Closed {
    words: atomic_table::Closed<u8, Global>,
    rows: u32,
}

impl Model for Closed {
    ghost use Rattle.std.specs.Slots.{slots_items, slots_len, IsFull};
    ghost use Rattle.ucq_board.specs.Values.{ClosedValue, IsClosedBoard, told_by};

    ghost Value = { ClosedValue };

    ghost view = { λ c. told_by (slots_items c.words.words) c.rows };

    ghost invariant = { λ c.
        IsClosedBoard (slots_len c.words.words) (slots_len c.words.slots) c.rows
        × IsFull c.words.words };
}

impl Drop for Closed {
    fn drop(self) {
        let Closed { words, rows: _ } = self;
        words.free();
    }
}

impl Closed {
    /// How many rows were drawn.
    pub fn drawn(&self) -> u32
        ensures { result ≡ self.now.drawn }
    {
        let cursor = self.words.word(CURSOR);
        cursor.min(self.rows as u64) as u32
    }

    /// Whether some seat had called stop.
    pub fn is_stopped(&self) -> bool
        ensures { result ≡ self.now.stopped }
    {
        self.words.word(STOP) == 1
    }

    /// Whether a row was finished. No number past the rows is.
    pub fn is_done(&self, row: u32) -> bool
        ensures { result ≡ is_done_in self.now row }
    {
        row < self.rows && self.words.word(row as usize + FIRST_ROW) == 1
    }
}

impl Seat {
    /// How many seats may still be split from this one, 0 to 127.
    pub fn spare(&self) -> u32
        ensures spare { result ≡ self.now.view.spare }
        ensures few { result < SEATS }
    {
        self.spare
    }

    /// Whether it has drawn past the last row, so that it draws no more.
    pub fn has_ended(&self) -> bool
        ensures { result ≡ self.now.view.ended }
    {
        self.ended
    }
}

impl Board {
    /// A board of so many rows, 0 to 65,536, for so many seats, 1 to 128, and its first seat, which has the others to spare.
    /// No other call takes memory.
    pub fn new(alloc: Global, rows: u32, seats: u32) -> Result<(Board, Seat), NoMemory>
        requires rows { rows ≤ ROWS }
        requires some { 1 ≤ seats }
        requires seats { seats ≤ SEATS }
        ensures board { IfOk result (λ r. (r.0.rows ≡ rows) × (r.0.seats ≡ seats)) }
        ensures seat { IfOk result (λ r. IsSeatOf r.0 r.1) }
        ensures view { IfOk result (λ r. r.1.view ≡ fresh (record { rows = rows; seats = seats })) }
    {
        let words = vec![in alloc; 0u64; rows as usize + 2]?;
        let key = Key {
            rows: rows as u64,
            seats: seats as u64,
        };
        let (table, inner) = Table::<u8, View, Key, Rule, Global>::of_words(
            alloc,
            words.as_slice(),
            &key,
        )?;
        let board = Board { table, rows, seats };
        let seat = Seat {
            inner,
            spare: seats - 1,
            ended: false,
        };
        Ok((board, seat))
    }

    /// A new seat from one that has some to spare. It knows of the stop and of done rows what the other knows, and has drawn
    /// nothing.
    pub fn split(&self, seat: &mut Seat) -> Seat
        requires board { IsSeatOf self.now seat.old }
        requires spare { 1 ≤ seat.old.view.spare }
        ensures left { seat.new.view ≡ left_of seat.old.view }
        ensures right { result.view ≡ right_of seat.old.view }
        ensures board { IsSeatOf self.now seat.new × IsSeatOf self.now result }
    {
        let inner = self.table.shared.split_seat::<Splitting>(&mut seat.inner);
        seat.spare -= 1;
        Seat {
            inner,
            spare: 0,
            ended: seat.ended,
        }
    }

    /// Gives the seat all that the other has and knows. No row was drawn by both.
    pub fn join(&self, seat: &mut Seat, other: Seat)
        requires board { IsSeatOf self.now seat.old }
        requires other { IsSeatOf self.now other }
        ensures both { seat.new.view ≡ both_of seat.old.view other.view }
        ensures once { AreOnce seat.new.view.drawn }
        ensures board { IsSeatOf self.now seat.new }
    {
        let Seat {
            inner,
            spare,
            ended,
        } = other;
        let shared = &self.table.shared;
        shared.join_seat::<Joining>(&mut seat.inner, inner);
        shared.load::<Looking>(&mut seat.inner, CURSOR);
        seat.spare = seat.spare + spare + 1;
        seat.ended = seat.ended || ended;
    }

    /// Draws the next row for the seat, or `None` where the seat had ended, there is a stop, or no row is left, at which the
    /// seat ends. No other seat draws the row.
    pub fn draw(&self, seat: &mut Seat) -> Option<u32>
        requires board { IsSeatOf self.now seat.old }
        ensures does { DoesDraw seat.old.view result seat.new.view }
        ensures row { IfSome result (λ row. row < self.now.rows) }
        ensures may { IfSome result (λ row. MayFinish seat.new.view row) }
        ensures board { IsSeatOf self.now seat.new }
    {
        if seat.ended || self.is_stopped(seat) {
            return None;
        }
        self.draw_next(seat)
    }

    // Takes a step of the cursor.
    fn draw_next(&self, seat: &mut Seat) -> Option<u32>
        requires board { IsSeatOf self.now seat.old }
        requires going { seat.old.view.ended ≡ false }
        requires unknowing { seat.old.view.knows ≡ false }
        ensures does { DoesDraw seat.old.view result seat.new.view }
        ensures row { IfSome result (λ row. row < self.now.rows) }
        ensures may { IfSome result (λ row. MayFinish seat.new.view row) }
        ensures board { IsSeatOf self.now seat.new }
    {
        let found = self
            .table
            .shared
            .fetch_add::<Drawing>(&mut seat.inner, CURSOR, 1);
        if found < self.rows as u64 {
            return Some(found as u32);
        }
        seat.ended = true;
        None
    }

    /// Whether some seat has called stop, which this one knows then.
    pub fn is_stopped(&self, seat: &mut Seat) -> bool
        requires board { IsSeatOf self.now seat.old }
        ensures does { DoesAskStop seat.old.view result seat.new.view }
        ensures knows { result ≡ seat.new.view.knows }
        ensures board { IsSeatOf self.now seat.new }
    {
        let shared = &self.table.shared;
        shared.load::<AskingStop>(&mut seat.inner, STOP) != 0
    }

    /// Says that the seat has finished a row that it has drawn, itself or through a join, and not finished yet.
    pub fn finish(&self, seat: &mut Seat, row: u32)
        requires board { IsSeatOf self.now seat.old }
        requires may { MayFinish seat.old.view row }
        ensures does { seat.new.view ≡ finishing seat.old.view row }
        ensures board { IsSeatOf self.now seat.new }
    {
        let shared = &self.table.shared;
        shared.fetch_or::<Finishing>(&mut seat.inner, row as usize + FIRST_ROW, 1);
    }

    /// Stops all drawing, at each draw that begins from now on.
    pub fn stop(&self, seat: &mut Seat)
        requires board { IsSeatOf self.now seat.old }
        ensures does { seat.new.view ≡ stopping seat.old.view }
        ensures board { IsSeatOf self.now seat.new }
    {
        let shared = &self.table.shared;
        shared.fetch_or::<Stopping>(&mut seat.inner, STOP, 1);
    }

    /// Whether some seat has finished the row, which this one has seen done then.
    pub fn is_done(&self, seat: &mut Seat, row: u32) -> bool
        requires board { IsSeatOf self.now seat.old }
        requires row { row < self.now.rows }
        ensures does { DoesAskRow seat.old.view row result seat.new.view }
        ensures seen { IsTrue result ↔ Contains seat.new.view.seen row }
        ensures board { IsSeatOf self.now seat.new }
    {
        let shared = &self.table.shared;
        shared.load::<AskingRow>(&mut seat.inner, row as usize + FIRST_ROW) != 0
    }

    /// Ends all drawing. The seat must be the last: all others were joined into it.
    pub fn close(self, seat: Seat) -> Closed
        requires board { IsSeatOf self seat }
        requires all { seat.view.spare + 1 ≡ self.seats }
        ensures drawn { AreBelow seat.view.drawn result.drawn }
        ensures all { seat.view.ended ≡ true → result.drawn ≡ self.rows }
        ensures stopped { result.stopped ≡ seat.view.called }
        ensures few { result.drawn ≤ self.rows }
        ensures count { length result.done ≡ self.rows }
        ensures done { (row : ℕ) →
            row < self.rows →
            (IsTrue (is_done_in result row) ↔ Contains seat.view.finished row) }
    {
        let Board {
            table,
            rows,
            seats: _,
        } = self;
        let Seat {
            inner,
            spare: _,
            ended: _,
        } = seat;
        let words = table.close_with(inner);
        Closed { words, rows }
    }
}
