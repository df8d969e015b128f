//! Entries of a log, which threads share.
ghost use Rattle.std.specs.Prelude.{◌≡◌, ◌≤◌, length, IfOk, All};
ghost use Rattle.ucq_log.specs.Log.{IsEntryOf};

use crate::asserts::{asked, equal, holds, room, sure};
use std::alloc::Global;
use std::process::Abort;
use std::sync::Wait;
use std::thread;
use std::thread::Threads;
use ucq_log::laws::entries_agree;
use ucq_log::{Entry, Log, Seen, Unkept};
use ucq_terms::Query;

/// A log without entries.
fn fresh(rt: &impl Abort, alloc: Global) -> Log {
    sure(rt, Log::new(alloc))
}

/// The entry of the row and the query of the text.
fn added<R: Wait + Abort>(rt: &R, alloc: Global, log: &Log, row: u32, text: &str) -> Entry
    ensures { IsEntryOf log.now result }
{
    match log.add(rt, row, asked(rt, alloc, text)) {
        Ok(entry) => entry,
        Err(_) => panic!(rt; "no memory"),
    }
}

/// What is seen.
#[derive(Debug, PartialEq, Eq, Clone, Copy)]
enum Found {
    Own { place: u32 },
    /// An entry of that row, which is at that place of the log, and whether its query is the one that is looked for there.
    Other { row: u32, place: u64, same: bool },
}

/// The entry of that row, which is at that place.
fn other(row: u32, place: u64) -> Option<Found> {
    Some(Found::Other {
        row,
        place,
        same: true,
    })
}

/// What is seen of the first text, where the second is that of an entry which may be found.
fn seen(
    rt: &impl Abort,
    alloc: Global,
    log: &Log,
    own: &[Entry],
    texts: (&str, &str),
) -> Option<Found>
    requires few { length own.now ≤ 65536 }
    requires ours { All (λ e. IsEntryOf log.now e) own.now }
{
    let mut space = room(rt, alloc);
    match log.seen(&mut space, own, &asked(rt, alloc, texts.0))? {
        Seen::Own { place } => Some(Found::Own { place }),
        Seen::Other { entry } => Some(Found::Other {
            row: log.row(&entry),
            place: entry.place(),
            same: log.value(&entry).same(&asked(rt, alloc, texts.1)),
        }),
    }
}

#[test]
fn own_entries_are_seen_first(rt: HostRuntime) {
    let log = fresh(&rt, rt.alloc());
    let own = [added(&rt, rt.alloc(), &log, 1, "? pX")];
    let found = seen(&rt, rt.alloc(), &log, &own, ("? pa", "? pX"));
    equal(&rt, found, Some(Found::Own { place: 0 }), "pa");
    let found = seen(&rt, rt.alloc(), &log, &own, ("? qa", "? pX"));
    equal(&rt, found, None, "qa");
}

#[test]
fn other_entries_are_found(rt: HostRuntime) {
    let log = fresh(&rt, rt.alloc());
    added(&rt, rt.alloc(), &log, 1, "? pX");
    let found = seen(&rt, rt.alloc(), &log, &[], ("? pa", "? pX"));
    equal(&rt, found, other(1, 0), "pa");
    let found = seen(&rt, rt.alloc(), &log, &[], ("? qa", "? pX"));
    equal(&rt, found, None, "qa");
}

#[test]
fn the_newest_is_found(rt: HostRuntime) {
    let log = fresh(&rt, rt.alloc());
    added(&rt, rt.alloc(), &log, 1, "? pX");
    added(&rt, rt.alloc(), &log, 2, "? pX");
    let own = [added(&rt, rt.alloc(), &log, 3, "? qX")];
    let found = seen(&rt, rt.alloc(), &log, &own, ("? pa", "? pX"));
    equal(&rt, found, other(2, 1), "pa");
}

/// The entry of another that is seen of the text.
fn seen_of_another(rt: &impl Abort, alloc: Global, log: &Log, text: &str) -> Entry
    ensures { IsEntryOf log.now result }
{
    let mut space = room(rt, alloc);
    match log.seen(&mut space, &[], &asked(rt, alloc, text)) {
        Some(Seen::Other { entry }) => entry,
        _ => panic!(rt; "not found"),
    }
}

#[test]
fn entries_of_one_place_agree(rt: HostRuntime) {
    let log = fresh(&rt, rt.alloc());
    let first = added(&rt, rt.alloc(), &log, 1, "? pX");
    let second = seen_of_another(&rt, rt.alloc(), &log, "? pa");
    assert!(rt; first.place() == second.place());
    entries_agree(&log, &first, &second);
}

/// Two threads add to one log.
fn added_by_two<R: Threads + Wait + Sync>(
    rt: &R,
    log: &Log,
    one: Query,
    other: Query,
) -> (Result<Entry, Unkept>, Result<Entry, Unkept>)
    ensures one { IfOk result.0 (λ e. IsEntryOf log.now e) }
    ensures other { IfOk result.1 (λ e. IsEntryOf log.now e) }
{
    thread::join(
        rt,
        move || -> Result<Entry, Unkept>
            ensures { IfOk result (λ e. IsEntryOf log.entry.now e) }
        { log.add(rt, 1, one) },
        move || -> Result<Entry, Unkept>
            ensures { IfOk result (λ e. IsEntryOf log.entry.now e) }
        { log.add(rt, 2, other) },
    )
}

/// The row of the entry, and whether its query is the given one.
fn told(log: &Log, entry: &Result<Entry, Unkept>, wanted: &Query) -> Option<(u32, bool)>
    requires { IfOk entry.now (λ e. IsEntryOf log.now e) }
{
    match entry {
        Ok(entry) => Some((log.row(entry), log.value(entry).same(wanted))),
        Err(_) => None,
    }
}

/// Whether both were added, at different places.
fn are_apart(first: &Result<Entry, Unkept>, second: &Result<Entry, Unkept>) -> bool {
    match (first, second) {
        (Ok(first), Ok(second)) => first.place() != second.place(),
        _ => false,
    }
}

#[test]
fn threads_share_a_log(rt: HostRuntime) {
    let log = fresh(&rt, rt.alloc());
    let one = asked(&rt, rt.alloc(), "? pX");
    let other = asked(&rt, rt.alloc(), "? qa");
    let (first, second) = added_by_two(&rt, &log, one, other);
    let found = told(&log, &first, &asked(&rt, rt.alloc(), "? pX"));
    equal(&rt, found, Some((1, true)), "first");
    let found = told(&log, &second, &asked(&rt, rt.alloc(), "? qa"));
    equal(&rt, found, Some((2, true)), "second");
    holds(&rt, are_apart(&first, &second));
}
