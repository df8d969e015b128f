//! Cores that are kept.
ghost use Rattle.std.specs.Prelude.{◌≡◌, ◌<◌, ◌^◌, [], false, Contains, OnOk, IfOk};
ghost use Rattle.ucq_step.specs.Kept.{AreDifferent, HasKept, stirred, term_number, terms_print, atoms_print, query_print};

use indexmap::IndexSet;
use std::alloc::Global;
use std::hash::{Hash, Hasher};
use std::marker::Model;
use ucq_terms::{Atom, NoMemory, Query, Term};

/// A query that is found by a hash.
#[derive(Drop)]
struct Core {
    query: Query,
}

impl Model for Core {
    ghost use Rattle.ucq_terms.specs.Syntax.{Query as QueryValue};

    ghost Value = { QueryValue };

    ghost view = { λ c. c.query };

    ghost inverse = { λ q. record { query = q } };
}

impl PartialEq for Core {
    ghost use Rattle.ucq_terms.specs.Equality.{query_eq, IsPartialEquivalence-query_eq};

    ghost eq = { query_eq };

    ghost laws = { IsPartialEquivalence-query_eq };

    fn eq(&self, other: &Core) -> bool {
        self.query == other.query
    }
}

impl Eq for Core {
    ghost use Rattle.ucq_terms.specs.Equality.{IsEquivalence-query_eq};

    ghost laws = { IsEquivalence-query_eq };
}

impl Hash for Core {
    ghost use Rattle.std.specs.Hash as fed;
    ghost use Rattle.ucq_step.specs.Kept.{query_print, query_print-same};

    ghost hash_input = { λ q. fed.u64 (query_print q) };

    ghost respects_eq = { query_print-same };

    fn hash<H: Hasher>(&self, state: &mut H) {
        state.write_u64(print_query(&self.query));
    }
}

fn stir(print: u64, number: u64) -> u64
    ensures { result ≡ stirred print number }
{
    print
        .wrapping_mul(6_364_136_223_846_793_005)
        .wrapping_add(number)
}

fn number(term: Term) -> u64
    ensures { result ≡ term_number term }
{
    match term {
        Term::Constant(constant) => 2 * constant as u64,
        Term::Variable(variable) => 2 * variable as u64 + 1,
    }
}

fn print_terms(start: u64, terms: &[Term]) -> u64
    ensures { result ≡ terms_print start terms.now }
{
    terms
        .iter()
        .fold(start, |print, term| stir(print, number(*term)))
}

fn print_atom(print: u64, atom: &Atom) -> u64
    ensures { result ≡ terms_print (stirred print atom.now.name) atom.now.terms }
{
    print_terms(stir(print, atom.name() as u64), atom.terms())
}

fn print_atoms(start: u64, atoms: &[Atom]) -> u64
    ensures { result ≡ atoms_print start atoms.now }
{
    atoms
        .iter()
        .fold(start, |print, atom| print_atom(print, atom))
}

fn print_query(query: &Query) -> u64
    ensures { result ≡ query_print query.now }
{
    print_atoms(print_terms(0, query.answers()), query.atoms())
}

/// Queries, none of them twice, of which equal ones are found by a hash.
#[derive(Drop)]
pub struct Kept {
    cores: IndexSet<Core>,
}

impl Model for Kept {
    ghost use Rattle.std.specs.Prelude.{List};
    ghost use Rattle.ucq_terms.specs.Syntax.{Query as QueryValue};

    ghost Value = { List QueryValue };

    ghost view = { λ k. k.cores.keys };
}

impl Kept {
    /// No queries.
    pub fn new(alloc: Global) -> Kept
        ensures { result ≡ [] }
    {
        Kept {
            cores: IndexSet::new(alloc),
        }
    }

    /// Keeps the query, unless an equal one is kept, and tells whether it is new.
    pub fn keep(&mut self, query: Query) -> Result<bool, NoMemory>
        ensures kept { OnOk result (HasKept self.old query self.new) }
        ensures held { IfOk result (λ is_new. is_new ≡ false → Contains self.old query) }
    {
        let is_new = self.cores.insert(Core { query })?;
        Ok(is_new)
    }

    /// The queries, in the order in which they came.
    pub fn into_queries(self, alloc: Global) -> Result<Vec<Query>, NoMemory>
        ensures queries { IfOk result (λ queries. queries.items ≡ self) }
        ensures different { IfOk result (λ queries. AreDifferent queries.items) }
    {
        let mut queries = Vec::with_capacity(alloc, self.cores.len())?;
        for core in self.cores {
            queries.push(core.query)?;
        }
        Ok(queries)
    }
}
