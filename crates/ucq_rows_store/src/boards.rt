//! Small boards, and one that two threads share.
ghost use Rattle.std.specs.Prelude.{◌≡◌, ◌≤◌};
ghost use Rattle.ucq_board.specs.Rule.{fresh};
ghost use Rattle.ucq_board.specs.Steps.{drew};
ghost use Rattle.ucq_board.specs.Calls.{DrawsNone};
ghost use Rattle.ucq_board.specs.Values.{IsSeatOf};

use crate::asserts::{equal, holds};
use std::alloc::Global;
use std::process::Abort;
use std::thread::join;
use ucq_board::{Board, Seat};

/// A board with so many rows and seats, and its first seat.
fn opened(rt: &impl Abort, alloc: Global, rows: u32, seats: u32) -> (Board, Seat)
    requires rows { rows ≤ 65536 }
    requires some { 1 ≤ seats }
    requires seats { seats ≤ 128 }
    ensures board { (result.0.rows ≡ rows) × (result.0.seats ≡ seats) }
    ensures seat { IsSeatOf result.0 result.1 }
    ensures view { result.1.view ≡ fresh (record { rows = rows; seats = seats }) }
{
    match Board::new(alloc, rows, seats) {
        Ok(opened) => opened,
        Err(fault) => panic!(rt; "{fault:?}"),
    }
}

/// Asserts that the seat draws this row.
fn draws(rt: &impl Abort, board: &Board, seat: &mut Seat, row: u32)
    requires { IsSeatOf board.now seat.old }
    ensures view { seat.new.view ≡ drew seat.old.view row }
    ensures board { IsSeatOf board.now seat.new }
{
    match board.draw(seat) {
        Some(drawn) => assert_eq!(rt; drawn, row),
        None => panic!(rt; "no row was drawn"),
    }
}

/// Asserts that the seat draws no row.
fn draws_none(rt: &impl Abort, board: &Board, seat: &mut Seat)
    requires { IsSeatOf board.now seat.old }
    ensures view { DrawsNone seat.old.view seat.new.view }
    ensures board { IsSeatOf board.now seat.new }
{
    match board.draw(seat) {
        Some(_) => panic!(rt; "a row was drawn"),
        None => {},
    }
}

#[test]
fn two_seats_draw_and_finish_three_rows(rt: HostRuntime) {
    let (board, mut first) = opened(&rt, rt.alloc(), 3, 2);
    equal(&rt, first.spare(), 1, "count");
    let mut second = board.split(&mut first);
    draws(&rt, &board, &mut first, 0);
    draws(&rt, &board, &mut second, 1);
    draws(&rt, &board, &mut first, 2);
    draws_none(&rt, &board, &mut second);
    draws_none(&rt, &board, &mut first);
    holds(&rt, first.has_ended() && second.has_ended());
    holds(&rt, !board.is_done(&mut second, 2));
    board.finish(&mut first, 0);
    board.finish(&mut first, 2);
    holds(&rt, board.is_done(&mut second, 2));
    board.finish(&mut second, 1);
    board.join(&mut first, second);
    let closed = board.close(first);
    equal(&rt, closed.drawn(), 3, "count");
    holds(&rt, !closed.is_stopped());
    holds(
        &rt,
        closed.is_done(0) && closed.is_done(1) && closed.is_done(2),
    );
}

#[test]
fn a_stopped_seat_draws_no_row(rt: HostRuntime) {
    let (board, mut seat) = opened(&rt, rt.alloc(), 3, 1);
    holds(&rt, !board.is_stopped(&mut seat));
    board.stop(&mut seat);
    holds(&rt, board.is_stopped(&mut seat));
    draws_none(&rt, &board, &mut seat);
    holds(&rt, !seat.has_ended());
    let closed = board.close(seat);
    equal(&rt, closed.drawn(), 0, "count");
    holds(&rt, closed.is_stopped() && !closed.is_done(0));
}

/// Draws and finishes rows to the end.
fn work(board: &Board, mut seat: Seat) -> Seat
    requires { IsSeatOf board.now seat }
    ensures board { IsSeatOf board.now result }
    ensures spare { result.view.spare ≡ seat.view.spare }
{
    for _ in 0..=1000u32 {
        if let Some(row) = board.draw(&mut seat) {
            board.finish(&mut seat, row);
        }
    }
    seat
}

#[test]
fn two_threads_draw_all_rows(rt: HostRuntime) {
    let (board, mut first) = opened(&rt, rt.alloc(), 1000, 2);
    let second = board.split(&mut first);
    let shared = &board;
    let (mut first, second) = join(
        &rt,
        || -> Seat
            requires { IsSeatOf shared.now first × (first.view.spare ≡ 0) }
            ensures { IsSeatOf shared.entry.now result × (result.view.spare ≡ 0) }
        { work(shared, first) },
        || -> Seat
            requires { IsSeatOf shared.now second × (second.view.spare ≡ 0) }
            ensures { IsSeatOf shared.entry.now result × (result.view.spare ≡ 0) }
        { work(shared, second) },
    );
    holds(&rt, first.has_ended() && second.has_ended());
    board.join(&mut first, second);
    let closed = board.close(first);
    equal(&rt, closed.drawn(), 1000, "count");
    for row in 0..1000 {
        holds(&rt, closed.is_done(row));
    }
}
