//! The search for the next set of pieces that make an aggregate.
ghost use Rattle.std.specs.Prelude.{◌≡◌, ◌<◌, ◌≤◌, ◌+◌, ◌++◌, [], ◌∷◌, ◌↔◌, ◌⊎◌, ℕ, List, length, vec_len, IsTrue, IfOk, Contains, Some, None, true, false};
ghost use Rattle.ucq_terms.specs.Rewriting.{AreApart};
ghost use Rattle.ucq_classes.specs.Classes.{IsClassed};
ghost use Rattle.ucq_join.specs.inner.Copies.{AreNumbered};
ghost use Rattle.ucq_join.specs.Walk.{ArePieces, IsJoin, piece_member, links_at, Walk, IsNext, IsLast};
ghost use Rattle.ucq_join.specs.inner.Search.{has_place, overlap, start_of, IsStart, IsFirstFrom, IsAdvanced};

use crate::links::{link_members, link_piece, piece_at};
use ucq_classes::Classes;
use ucq_terms::{NoMemory, Piece, Query, Rule};

/// Whether the piece matches the query's atom at the place.
fn has_place(piece: &Piece, place: u32) -> bool
    ensures { result ≡ has_place piece.now place }
{
    piece.pairs.iter().any(|pair| place == pair.0)
}

/// Whether the two pieces match an atom of the query together.
fn overlaps(piece: &Piece, other: &Piece) -> bool
    ensures { result ≡ overlap piece.now other.now }
{
    piece.pairs.iter().any(|pair| has_place(other, pair.0))
}

/// Whether the piece at the place overlaps no member.
fn is_apart(pieces: &[Piece], members: &[usize], place: usize) -> bool
    requires within { (member : ℕ) → Contains members.now member → member < length pieces.now }
    requires place { place < length pieces.now }
    ensures { IsTrue result
        ↔ ((member : ℕ) →
        Contains members.now member →
        AreApart (piece_member pieces.now member) (piece_member pieces.now place)) }
{
    for i in 0..members.len() {
        if overlaps(piece_at(pieces, members[i]), &pieces[place]) {
            return false;
        }
    }
    true
}

/// Whether the members and the piece at the place, which is above theirs, make an aggregate. If so, the classes are its.
fn joins(
    classes: &mut Classes,
    query: &Query,
    rule: &Rule,
    pieces: &[Piece],
    members: &[usize],
    place: usize,
) -> bool
    requires numbered { AreNumbered query.now rule.now classes.old.numbers }
    requires pieces { ArePieces query.now rule.now pieces.now }
    requires room { length members.now + 1 ≤ length classes.old.numbers.widths }
    requires start { IsStart query.now rule.now pieces.now members.now place }
    requires place { place < length pieces.now }
    ensures numbers { classes.new.numbers ≡ classes.old.numbers }
    ensures join { result ≡ true →
        IsJoin query.now rule.now pieces.now (members.now ++ place ∷ []) }
    ensures none { result ≡ false →
        IsJoin query.now rule.now pieces.now (members.now ++ place ∷ []) →
        ⊥ }
    ensures classed { result ≡ true →
        IsClassed (links_at query.now rule.now pieces.now (members.now ++ place ∷ [])) classes.new }
{
    if !is_apart(pieces, members, place) {
        return false;
    }
    let copy = members.len() as u32;
    link_members(classes, query, rule, pieces, members);
    link_piece(classes, query, rule, copy, &pieces[place]);
    !classes.has_clash()
}

/// The first piece from `start` on that makes an aggregate with the members. If there is one, the classes are its.
fn first_joining(
    classes: &mut Classes,
    query: &Query,
    rule: &Rule,
    pieces: &[Piece],
    members: &[usize],
    start: usize,
) -> Option<usize>
    requires numbered { AreNumbered query.now rule.now classes.old.numbers }
    requires pieces { ArePieces query.now rule.now pieces.now }
    requires room { length members.now + 1 ≤ length classes.old.numbers.widths }
    requires start { IsStart query.now rule.now pieces.now members.now start }
    ensures numbers { classes.new.numbers ≡ classes.old.numbers }
    ensures first { IsFirstFrom query.now rule.now pieces.now members.now start result }
    ensures classed { (place : ℕ) →
        result ≡ Some place →
        IsClassed (links_at query.now rule.now pieces.now (members.now ++ place ∷ [])) classes.new }
{
    for place in start..pieces.len() {
        if joins(classes, query, rule, pieces, members, place) {
            return Some(place);
        }
    }
    None
}

/// The place after the last member's, or 0 where there is none.
fn start_after(members: &[usize], count: usize) -> usize
    requires { (place : ℕ) → Contains members.now place → place < count }
    ensures { result ≡ start_of members.now }
{
    if members.len() == 0 {
        return 0;
    }
    next_place(members[members.len() - 1], count)
}

fn next_place(place: usize, count: usize) -> usize
    requires { place < count }
    ensures { result ≡ place + 1 }
{
    place + 1
}

/// Takes the members on to the next set, and tells whether there is one. If so, the classes are its.
pub fn advance(
    classes: &mut Classes,
    query: &Query,
    rule: &Rule,
    pieces: &[Piece],
    members: &mut Vec<usize>,
) -> Result<bool, NoMemory>
    requires numbered { AreNumbered query.now rule.now classes.old.numbers }
    requires pieces { ArePieces query.now rule.now pieces.now }
    requires room { vec_len members.old + 1 ≤ length classes.old.numbers.widths }
    requires present { (members.old.items ≡ [])
        ⊎ IsJoin query.now rule.now pieces.now members.old.items }
    ensures numbers { classes.new.numbers ≡ classes.old.numbers }
    ensures advanced { IfOk result (λ found.
        IsAdvanced
        (record {
          query = query.now;
          rule = rule.now;
          pieces = pieces.now;
          present = members.old.items;
        })
        members.new.items
        found) }
    ensures classed { IfOk result (λ found.
        found ≡ true →
        IsClassed (links_at query.now rule.now pieces.now members.new.items) classes.new) }
    ensures length { IfOk result (λ found. vec_len members.new ≤ vec_len members.old + 1) }
{
    let count = pieces.len();
    let mut start = start_after(members, count);
    loop {
        if let Some(place) = first_joining(classes, query, rule, pieces, members, start) {
            members.push(place)?;
            return Ok(true);
        }
        match members.pop() {
            None => return Ok(false),
            Some(last) => start = next_place(last, count),
        }
    }
}
