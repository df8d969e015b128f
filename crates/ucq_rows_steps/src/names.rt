//! What numbers names have.
use crate::asserts::{equal, reads, sure};
use std::alloc::Global;
use std::process::Abort;
use ucq_terms::Names;

/// Takes a name up, and gives its number.
fn number(rt: &impl Abort, names: &mut Names, text: &str) -> u32 {
    assert!(rt; names.len() < 1_000);
    sure(rt, names.number(text.as_bytes()))
}

/// The names of three texts, which are numbered in turn, and their numbers.
fn numbered(rt: &impl Abort, alloc: Global, texts: (&str, &str, &str)) -> (Names, (u32, u32, u32)) {
    let mut names = sure(rt, Names::new(alloc));
    let first = number(rt, &mut names, texts.0);
    let second = number(rt, &mut names, texts.1);
    let third = number(rt, &mut names, texts.2);
    (names, (first, second, third))
}

#[test]
fn names_are_numbered_in_order_of_first_occurrence(rt: HostRuntime) {
    let (names, numbers) = numbered(&rt, rt.alloc(), ("p", "q", "p"));
    equal(&rt, numbers, (0, 1, 0), "p, q and p");
    equal(&rt, names.len(), 2, "names");
}

#[test]
fn names_are_found_by_their_texts(rt: HostRuntime) {
    let (names, _numbers) = numbered(&rt, rt.alloc(), ("p", "q", "p"));
    equal(&rt, names.find(b"q"), Some(1), "q");
    equal(&rt, names.find(b"r"), None, "r");
}

#[test]
fn texts_are_found_by_their_numbers(rt: HostRuntime) {
    let (names, _numbers) = numbered(&rt, rt.alloc(), ("p", "q", "p"));
    reads(&rt, names.text_or_empty(1), "q");
    reads(&rt, names.text_or_empty(2), "");
}
