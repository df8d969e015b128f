//! The classes of terms that the members of a set of pieces join.
ghost use Rattle.std.specs.Prelude.{◌≡◌, ◌<◌, ◌≤◌, ◌++◌, ℕ, List, [], length, Contains, slice_index_or};
ghost use Rattle.ucq_terms.specs.declared.TheConstants.{ATOMS};
ghost use Rattle.ucq_terms.specs.Unifier.{Node, links};
ghost use Rattle.ucq_classes.specs.Numbers.{NumbersQuery, NumbersHeads};
ghost use Rattle.ucq_classes.specs.Classes.{IsClassed};
ghost use Rattle.ucq_join.specs.inner.Copies.{AreNumbered, KeepsEach};
ghost use Rattle.ucq_join.specs.Walk.{links_at};

use ucq_classes::Classes;
use ucq_terms::{Piece, Query, Rule};

/// Joins what the piece matches, with the copy.
pub fn link_piece(classes: &mut Classes, query: &Query, rule: &Rule, copy: u32, piece: &Piece)
    requires query { NumbersQuery classes.old.numbers query.now }
    requires heads { NumbersHeads classes.old.numbers copy rule.now }
    requires keeps { KeepsEach query.now rule.now piece.now }
    ensures numbers { classes.new.numbers ≡ classes.old.numbers }
    ensures linked { (before : List (Node × Node)) →
        IsClassed before classes.old →
        IsClassed (before ++ links query.now copy rule.now piece.now) classes.new }
{
    let atoms = query.atoms();
    let heads = rule.heads();
    let pairs = piece.pairs.as_slice();
    for i in 0..pairs.len() {
        let (place, head) = pairs[i];
        classes.link_atoms(&atoms[place as usize], copy, &heads[head as usize]);
    }
}

/// The piece at the place.
pub fn piece_at(pieces: &[Piece], place: usize) -> &Piece
    requires { place < length pieces.now }
    ensures { result.now ≡ slice_index_or pieces.now place [] }
{
    &pieces[place]
}

/// Makes the classes those of the members' links.
pub fn link_members(
    classes: &mut Classes,
    query: &Query,
    rule: &Rule,
    pieces: &[Piece],
    members: &[usize],
)
    requires numbered { AreNumbered query.now rule.now classes.old.numbers }
    requires few { length members.now ≤ ATOMS }
    requires room { length members.now ≤ length classes.old.numbers.widths }
    requires within { (place : ℕ) → Contains members.now place → place < length pieces.now }
    requires keeps { (piece : List (ℕ × ℕ)) →
        Contains pieces.now piece →
        KeepsEach query.now rule.now piece }
    ensures numbers { classes.new.numbers ≡ classes.old.numbers }
    ensures linked { IsClassed (links_at query.now rule.now pieces.now members.now) classes.new }
{
    classes.clear();
    for copy in 0..members.len() {
        link_piece(
            classes,
            query,
            rule,
            copy as u32,
            piece_at(pieces, members[copy]),
        );
    }
}
