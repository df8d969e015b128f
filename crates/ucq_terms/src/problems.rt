//! Problems.
ghost use Rattle.std.specs.Prelude.{◌≡◌, ◌≤◌, ◌↔◌, length, vec_len, IsTrue};
ghost use Rattle.ucq_terms.specs.declared.TheConstants.{RULES};

use crate::{Query, Rule};
use std::marker::Model;

/// At most 4,096 rules, and the query that is asked under them.
#[derive(Drop)]
pub struct Problem {
    rules: Vec<Rule>,
    query: Query,
}

impl Model for Problem {
    ghost use Rattle.std.specs.Prelude.{◌≤◌, length};
    ghost use Rattle.ucq_terms.specs.declared.TheConstants.{RULES};
    ghost use Rattle.ucq_terms.specs.Syntax.{Problem as ProblemValue};

    ghost Value = { ProblemValue };

    ghost view = { λ p. record { rules = p.rules.items; query = p.query } };

    ghost invariant = { λ p. length p.rules.items ≤ RULES };
}

impl Problem {
    /// The problem of these rules, of which there are at most 4,096, and this query.
    pub fn new(rules: Vec<Rule>, query: Query) -> Problem
        requires { vec_len rules ≤ RULES }
        ensures { result ≡ record { rules = rules.items; query = query } }
    {
        Problem { rules, query }
    }

    /// The rules, in order.
    pub fn rules(&self) -> &[Rule]
        ensures rules { result.now ≡ self.now.rules }
        ensures few { length result.now ≤ RULES }
    {
        self.rules.as_slice()
    }

    /// The query.
    pub fn query(&self) -> &Query
        ensures { result.now ≡ self.now.query }
    {
        &self.query
    }

    /// The rules and the query, as they were given.
    pub fn into_parts(self) -> (Vec<Rule>, Query)
        ensures rules { result.0.items ≡ self.rules }
        ensures few { vec_len result.0 ≤ RULES }
        ensures query { result.1 ≡ self.query }
    {
        (self.rules, self.query)
    }

    /// Whether the two have equal lists of rules and equal queries.
    pub fn same(&self, other: &Problem) -> bool
        ensures { IsTrue result ↔ (self.now ≡ other.now) }
    {
        self.query == other.query && self.rules == other.rules
    }
}
