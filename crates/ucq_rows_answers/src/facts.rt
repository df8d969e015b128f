//! Bases of facts, and what matches in them.
use crate::asserts::{equal, sure};
use std::alloc::Global;
use std::process::Abort;
use ucq_facts::Facts;
use ucq_terms::{Atom, NoMemory, Term};
use ucq_worked::{atom, atoms, term};

/// Adds the atom, and says whether it is new. A full base is taken for want of memory.
pub(crate) fn put(facts: &mut Facts, atom: Atom) -> Result<bool, NoMemory> {
    if facts.len() == 1_048_576 {
        return Err(NoMemory);
    }
    facts.add(atom)
}

/// The facts of a text as `pab qUa`.
pub(crate) fn facts_of(rt: &impl Abort, alloc: Global, text: &str) -> Facts {
    let mut facts = sure(rt, Facts::new(alloc));
    for word in text.split_whitespace() {
        add(rt, alloc, &mut facts, word);
    }
    facts
}

/// Adds the atom of the word, and says whether it is new.
fn add(rt: &impl Abort, alloc: Global, facts: &mut Facts, word: &str) -> bool {
    let atom = sure(rt, atom(alloc, word));
    sure(rt, put(facts, atom))
}

const SMALL: &str = "pab pcb paD pa";

/// Terms of atoms of `p`, where a dot stands for any, and the small facts that match.
const MATCHES: [(&str, &str); 6] = [
    (".b", "pab pcb"),
    ("a.", "pab paD"),
    (".a", ""),
    ("..", "pab pcb paD"),
    (".", "pa"),
    ("...", ""),
];

/// The first term that is given, with its place.
fn bound_of(letters: &[u8]) -> Option<(u32, Term)> {
    let mut place = 0u32;
    for letter in letters {
        if *letter != b'.' {
            return Some((place, term(*letter)));
        }
        place = place.saturating_add(1);
    }
    None
}

/// Whether exactly these facts of `p` match, in this order.
fn are(facts: &Facts, letters: &[u8], wanted: &[Atom]) -> bool {
    let arity = letters.len().min(16) as u32;
    let mut found = facts.matching(u32::from(b'p'), arity, bound_of(letters));
    for want in wanted {
        if found.next() != Some(want) {
            return false;
        }
    }
    found.len() == 0
}

/// Asserts of each pattern which facts match it.
fn assert_matches(rt: &impl Abort, alloc: Global, facts: &Facts, rows: &[(&str, &str)]) {
    for (pattern, text) in rows {
        let wanted = sure(rt, atoms(alloc, text));
        let found = are(facts, pattern.as_bytes(), wanted.as_slice());
        equal(rt, found, true, pattern);
    }
}

#[test]
fn matching_gives_the_facts_in_order(rt: HostRuntime) {
    let facts = facts_of(&rt, rt.alloc(), SMALL);
    assert_matches(&rt, rt.alloc(), &facts, &MATCHES);
}

/// Asserts of the word whether its atom is new, and how many facts there are then.
fn assert_added(
    rt: &impl Abort,
    alloc: Global,
    facts: &mut Facts,
    word: &str,
    is_new: bool,
    count: u32,
) {
    let found = add(rt, alloc, facts, word);
    equal(rt, (found, facts.len()), (is_new, count), word);
}

#[test]
fn a_held_fact_is_not_added_again(rt: HostRuntime) {
    let mut facts = facts_of(&rt, rt.alloc(), SMALL);
    assert_added(&rt, rt.alloc(), &mut facts, "pcb", false, 4);
    assert_added(&rt, rt.alloc(), &mut facts, "qcb", true, 5);
}

/// Whether the fact at the place is this one.
fn stands_at(facts: &Facts, place: u32, want: &Atom) -> bool {
    if place >= facts.len() {
        return false;
    }
    facts.atom(place) == want
}

#[test]
fn a_place_gives_its_fact(rt: HostRuntime) {
    let facts = facts_of(&rt, rt.alloc(), SMALL);
    let wanted = sure(&rt, atom(rt.alloc(), "pcb"));
    let places = facts.places(u32::from(b'p'), 2, Some((1, term(b'b'))));
    equal(&rt, places.get(1) == Some(&1), true, "place of pcb");
    equal(&rt, stands_at(&facts, 1, &wanted), true, "pcb");
}
