//! The walk through the sets of pieces that make aggregates.
ghost use Rattle.std.specs.Prelude.{◌≡◌, [], IfOk};
ghost use Rattle.ucq_join.specs.Walk.{ArePieces, Advances};

use crate::copies::{numbering, rule_width, set_copies};
use crate::joined::{Joined, named};
use crate::search::advance;
use std::alloc::Global;
use std::marker::Model;
use ucq_classes::{Classes, Numbering};
use ucq_terms::{NoMemory, Piece, Query, Rule};

/// A walk through the sets of pieces that make aggregates, in the order of a dictionary. Contracts see where it stands.
#[derive(Drop)]
pub struct Joins<'p> {
    query: &'p Query,
    rule: &'p Rule,
    pieces: &'p [Piece],
    numbering: Numbering,
    width: u32,
    present: Vec<usize>,
}

impl<'p> Model for Joins<'p> {
    ghost use Rattle.ucq_join.specs.Walk.{Walk};
    ghost use Rattle.ucq_join.specs.inner.Search.{IsWalking};

    ghost Value = { Walk };

    ghost view = { λ w.
        record {
          query = w.query.now;
          rule = w.rule.now;
          pieces = w.pieces.now;
          present = w.present.items;
        } };

    ghost invariant = { λ w.
        IsWalking
        (record {
          query = w.query.now;
          rule = w.rule.now;
          pieces = w.pieces.now;
          present = w.present.items;
        })
        w.numbering
        w.width };
}

impl<'p> Joins<'p> {
    /// A walk before the first set.
    pub fn new(
        alloc: Global,
        query: &'p Query,
        rule: &'p Rule,
        pieces: &'p [Piece],
    ) -> Result<Joins<'p>, NoMemory>
        requires { ArePieces query.now rule.now pieces.now }
        ensures { IfOk result (λ w.
            w ≡
            record {
              query = query.now;
              rule = rule.now;
              pieces = pieces.now;
              present = [];
            }) }
    {
        Ok(Joins {
            query,
            rule,
            pieces,
            numbering: numbering(alloc, query, rule)?,
            width: rule_width(rule),
            present: Vec::new(alloc),
        })
    }

    /// The next set of pieces that make an aggregate, or `None` after the last. So a walk from its start gives each of them
    /// once. It takes memory for one set at a time.
    pub fn next(&mut self) -> Result<Option<Joined>, NoMemory>
        ensures { Advances self.old self.new result }
    {
        let mut members = self.present.clone()?;
        let copies = members.len() as u32 + 1;
        set_copies(&mut self.numbering, copies, self.width)?;
        let mut classes = Classes::new(*members.allocator(), &self.numbering)?;
        if !advance(
            &mut classes,
            self.query,
            self.rule,
            self.pieces,
            &mut members,
        )? {
            return Ok(None);
        }
        let joined = named(*members.allocator(), &classes, &members, self.width)?;
        self.present = members;
        Ok(Some(joined))
    }
}
