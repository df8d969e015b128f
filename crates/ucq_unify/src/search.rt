//! The search for single pieces.
ghost use Rattle.std.specs.Prelude.{◌≡◌, ◌<◌, ◌^◌, ◌++◌, [], ◌∷◌, ◌↔◌, ◌≤◌, ℕ, length, IsTrue, OnOk, IfOk};
ghost use Rattle.ucq_terms.specs.Unifier.{KeepsPredicate};
ghost use Rattle.ucq_unify.specs.Pieces.{AreSinglePieces};
ghost use Rattle.ucq_unify.specs.inner.Growing.{pairs_of, with_head, IsGrown, IsOpen};
ghost use Rattle.ucq_unify.specs.inner.Sides.{AreNumbered};
ghost use Rattle.ucq_unify.specs.inner.Search.{IsSearchStep, HasFound, HasBranched, IsEmptyChoice};

use crate::classes::{first_called, has_clash, link_choice};
use crate::sides::{Sides, existential_flags, numbering};
use std::alloc::Global;
use ucq_classes::Classes;
use ucq_terms::{NoMemory, Piece, Query, Rule};

/// What becomes of a choice.
#[derive(Clone, Copy, Drop)]
enum Step {
    /// No piece with this root has its pairs.
    Blocked,
    /// It is a piece.
    Closed,
    /// Each piece with its pairs has one of this place too.
    Open(u32),
}

// What becomes of the choice, whose least place is the root.
fn next_step(classes: &mut Classes, sides: &Sides, choice: &[Option<u32>], root: u32) -> Step
    requires sides { AreNumbered sides.now.query.now sides.now.rule.now sides.now.existential.items
        classes.old.numbers }
    requires length { length choice.now ≡ length sides.now.query.now.atoms }
    requires grown { IsGrown sides.now.query.now sides.now.rule.now root choice.now }
    requires some { 0 < length (pairs_of choice.now) }
    ensures numbers { classes.new.numbers ≡ classes.old.numbers }
    ensures step { IsSearchStep sides.now.query.now sides.now.rule.now root choice.now result }
{
    link_choice(classes, sides, choice);
    if has_clash(classes, sides) {
        return Step::Blocked;
    }
    match first_called(classes, sides, choice) {
        None => Step::Closed,
        Some(place) if place < root => Step::Blocked,
        Some(place) => Step::Open(place),
    }
}

// Whether the atom at the place and the head's atom have one predicate.
fn fits(query: &Query, rule: &Rule, place: u32, head: u32) -> bool
    requires place { place < length query.now.atoms }
    requires head { head < length rule.now.heads }
    ensures { IsTrue result ↔ KeepsPredicate query.now rule.now (place, head) }
{
    let atom = &query.atoms()[place as usize];
    let other = &rule.heads()[head as usize];
    atom.name() == other.name() && atom.terms().len() == other.terms().len()
}

// Whether some atom of the head fits the atom at the place.
fn fits_some(query: &Query, rule: &Rule, place: u32) -> bool
    requires { place < length query.now.atoms }
    ensures { IsTrue result ↔ ((head : ℕ) × KeepsPredicate query.now rule.now (place, head)) }
{
    let heads = rule.heads().len() as u32;
    for head in 0..heads {
        if fits(query, rule, place, head) {
            return true;
        }
    }
    false
}

// Whether an atom of the query and one of the head have one predicate.
fn share_predicate(query: &Query, rule: &Rule) -> bool
    ensures { IsTrue result ↔ ((pair : ℕ × ℕ) × KeepsPredicate query.now rule.now pair) }
{
    for place in 0..query.atoms().len() as u32 {
        if fits_some(query, rule, place) {
            return true;
        }
    }
    false
}

// Adds the choice's pairs as a piece.
fn keep(choice: &[Option<u32>], found: &mut Vec<Piece>) -> Result<(), NoMemory>
    requires { length choice.now < 2 ^ 32 }
    ensures { OnOk result (found.new.items ≡ found.old.items ++ pairs_of choice.now ∷ []) }
{
    let piece = piece_of(*found.allocator(), choice)?;
    found.push(piece)?;
    Ok(())
}

// The choice's pairs as a piece.
fn piece_of(alloc: Global, choice: &[Option<u32>]) -> Result<Piece, NoMemory>
    requires { length choice.now < 2 ^ 32 }
    ensures { IfOk result (λ piece. piece ≡ pairs_of choice.now) }
{
    let mut pairs = Vec::new(alloc);
    for place in 0..choice.len() {
        if let Some(head) = choice[place] {
            pairs.push((place as u32, head))?;
        }
    }
    Ok(Piece { pairs })
}

// Adds the single pieces that have the choice's pairs and no place below the root. After want of memory some are added.
#[cycle(search)]
fn search(
    classes: &mut Classes,
    sides: &Sides,
    choice: &mut [Option<u32>],
    root: u32,
    found: &mut Vec<Piece>,
) -> Result<(), NoMemory>
    requires sides { AreNumbered sides.now.query.now sides.now.rule.now sides.now.existential.items
        classes.old.numbers }
    requires length { length choice.old ≡ length sides.now.query.now.atoms }
    requires grown { IsGrown sides.now.query.now sides.now.rule.now root choice.old }
    requires some { 0 < length (pairs_of choice.old) }
    ensures numbers { classes.new.numbers ≡ classes.old.numbers }
    ensures choice { OnOk result (choice.new ≡ choice.old) }
    ensures found { OnOk
        result
        (HasFound sides.now.query.now sides.now.rule.now root choice.old found.old.items
        found.new.items) }
{
    match next_step(classes, sides, choice, root) {
        Step::Blocked => Ok(()),
        Step::Closed => keep(choice, found),
        Step::Open(place) => branch(classes, sides, choice, root, place, found),
    }
}

// Adds those of them that have a pair of the place too.
#[cycle(search)]
fn branch(
    classes: &mut Classes,
    sides: &Sides,
    choice: &mut [Option<u32>],
    root: u32,
    place: u32,
    found: &mut Vec<Piece>,
) -> Result<(), NoMemory>
    requires sides { AreNumbered sides.now.query.now sides.now.rule.now sides.now.existential.items
        classes.old.numbers }
    requires length { length choice.old ≡ length sides.now.query.now.atoms }
    requires open { IsOpen sides.now.query.now sides.now.rule.now root choice.old place }
    ensures numbers { classes.new.numbers ≡ classes.old.numbers }
    ensures choice { OnOk result (choice.new ≡ choice.old) }
    ensures found { OnOk
        result
        (HasBranched sides.now.query.now sides.now.rule.now root choice.old place
        (length sides.now.rule.now.heads) found.old.items found.new.items) }
{
    for head in 0..sides.rule.heads().len() as u32 {
        if fits(sides.query, sides.rule, place, head) {
            try_head(classes, sides, choice, root, place, head, found)?;
        }
    }
    Ok(())
}

// Adds those of them that have the pair of the place and the head.
#[cycle(search)]
fn try_head(
    classes: &mut Classes,
    sides: &Sides,
    choice: &mut [Option<u32>],
    root: u32,
    place: u32,
    head: u32,
    found: &mut Vec<Piece>,
) -> Result<(), NoMemory>
    requires sides { AreNumbered sides.now.query.now sides.now.rule.now sides.now.existential.items
        classes.old.numbers }
    requires length { length choice.old ≡ length sides.now.query.now.atoms }
    requires open { IsOpen sides.now.query.now sides.now.rule.now root choice.old place }
    requires keeps { KeepsPredicate sides.now.query.now sides.now.rule.now (place, head) }
    ensures numbers { classes.new.numbers ≡ classes.old.numbers }
    ensures choice { OnOk result (choice.new ≡ choice.old) }
    ensures found { OnOk
        result
        (HasFound sides.now.query.now sides.now.rule.now root (with_head choice.old place head)
        found.old.items found.new.items) }
{
    choice[place as usize] = Some(head);
    search(classes, sides, choice, root, found)?;
    choice[place as usize] = None;
    Ok(())
}

// Adds all single pieces.
fn search_roots(
    classes: &mut Classes,
    sides: &Sides,
    choice: &mut [Option<u32>],
    found: &mut Vec<Piece>,
) -> Result<(), NoMemory>
    requires sides { AreNumbered sides.now.query.now sides.now.rule.now sides.now.existential.items
        classes.old.numbers }
    requires length { length choice.old ≡ length sides.now.query.now.atoms }
    requires empty { IsEmptyChoice choice.old }
    requires none { found.old.items ≡ [] }
    ensures { OnOk result (AreSinglePieces sides.now.query.now sides.now.rule.now found.new.items) }
{
    for root in 0..sides.query.atoms().len() as u32 {
        branch(classes, sides, choice, root, root, found)?;
    }
    Ok(())
}

/// The single-piece unifiers of the query with the rule, each once, in no promised order.
///
/// A piece grows from its least atom. Wherever it links a variable of the query to an existential variable, it takes in each
/// atom in which that variable stands, and the search branches over the head's atoms that fit. A branch ends as soon as two
/// constants meet, or an existential variable meets a constant, an answer variable or another variable of the rule. So the
/// time grows with the number of ways to grow a piece, not with that of sets of atoms. Where no atom has a predicate of the
/// head, no memory is taken.
pub fn single_pieces(alloc: Global, query: &Query, rule: &Rule) -> Result<Vec<Piece>, NoMemory>
    ensures { IfOk result (λ pieces. AreSinglePieces query.now rule.now pieces.items) }
{
    if !share_predicate(query, rule) {
        return Ok(Vec::new(alloc));
    }
    let existential = existential_flags(alloc, rule)?;
    let sides = Sides {
        query,
        rule,
        existential,
    };
    let numbering = numbering(alloc, &sides)?;
    let mut classes = Classes::new(alloc, &numbering)?;
    let mut choice = vec![in alloc; None; query.atoms().len()]?;
    let mut found = Vec::new(alloc);
    search_roots(&mut classes, &sides, choice.as_mut_slice(), &mut found)?;
    Ok(found)
}
