//! Worked terms, atoms, queries, rules and problems from short texts, for tests.
//!
//! A capital letter is a variable, from `A` on, and any other byte is the constant, or the predicate, of its number. A word
//! as `pXa` is an atom: the predicate's byte, then the terms. `pXa qX` are two atoms, `?X pXa qX` is the query of them that
//! answers `X`, `? pXa` answers nothing, and `rX sX <- pXY` is the rule with the head `rX sX` and the body `pXY`.
#![tactic(auto)]

ghost use Rattle.std.specs.Prelude.{◌≡◌, ◌≤◌, length, map, vec_len, IfOk};
ghost use Rattle.ucq_terms.specs.Query.{IsStored};
ghost use Rattle.ucq_worked.specs.Worked.{term_of, IsWordOf};
ghost use Rattle.ucq_worked.specs.declared.WorkedFault.TheVariants.{Memory};

use std::alloc::{AllocError, AllocFailed, Global};
use ucq_terms::{Atom, NoMemory, Problem, Query, QueryFault, Rule, Term};

/// The most atoms of one text.
pub const MOST_ATOMS: usize = 1_000;

/// Why a text makes nothing.
#[derive(Clone, Copy, Debug, PartialEq, Eq)]
pub enum WorkedFault {
    /// The text isn't spelled as above, or has too many terms, atoms or rules.
    Misspelt,
    /// The answers and atoms make no stored query.
    Query(QueryFault),
    /// Want of memory.
    Memory,
}

impl From<AllocError> for WorkedFault {
    ghost from_gives = { λ _ fault. fault ≡ Memory };

    fn from(_error: AllocError) -> WorkedFault {
        WorkedFault::Memory
    }
}

impl<T: Drop> From<AllocFailed<T>> for WorkedFault {
    ghost from_gives = { λ _ fault. fault ≡ Memory };

    fn from(_error: AllocFailed<T>) -> WorkedFault {
        WorkedFault::Memory
    }
}

impl From<NoMemory> for WorkedFault {
    ghost from_gives = { λ _ fault. fault ≡ Memory };

    fn from(_error: NoMemory) -> WorkedFault {
        WorkedFault::Memory
    }
}

impl From<QueryFault> for WorkedFault {
    fn from(fault: QueryFault) -> WorkedFault {
        match fault {
            QueryFault::Memory => WorkedFault::Memory,
            _ => WorkedFault::Query(fault),
        }
    }
}

/// The term of the byte.
pub fn term(letter: u8) -> Term
    ensures { result ≡ term_of letter }
{
    if letter >= b'A' && letter <= b'Z' {
        Term::Variable(u32::from(letter - b'A'))
    } else {
        Term::Constant(u32::from(letter))
    }
}

/// The terms of the bytes, in order.
pub fn terms(alloc: Global, letters: &[u8]) -> Result<Vec<Term>, AllocError>
    ensures { IfOk result (λ v. v.items ≡ map term_of letters.now) }
{
    letters.iter().map(|letter| term(*letter)).collect(alloc)
}

/// The atom of the word.
pub fn atom(alloc: Global, word: &str) -> Result<Atom, WorkedFault>
    ensures { IfOk result (λ a. IsWordOf word.now a) }
{
    let Some((name, letters)) = word.as_bytes().split_first() else {
        return Err(WorkedFault::Misspelt);
    };
    if letters.is_empty() || letters.len() > 16 {
        return Err(WorkedFault::Misspelt);
    }
    Ok(Atom::new(u32::from(*name), terms(alloc, letters)?))
}

/// The atoms of the text, in order.
pub fn atoms(alloc: Global, text: &str) -> Result<Vec<Atom>, WorkedFault>
    ensures { IfOk result (λ v. vec_len v ≤ MOST_ATOMS) }
{
    let mut all = Vec::new(alloc);
    for word in text.split_whitespace() {
        if all.len() == MOST_ATOMS {
            return Err(WorkedFault::Misspelt);
        }
        all.push(atom(alloc, word)?)?;
    }
    Ok(all)
}

/// The query of the text.
pub fn query(alloc: Global, text: &str) -> Result<Query, WorkedFault>
    ensures { IfOk result IsStored }
{
    let Some((question, words)) = text.split_once(' ') else {
        return Err(WorkedFault::Misspelt);
    };
    let Some(letters) = question.strip_prefix('?') else {
        return Err(WorkedFault::Misspelt);
    };
    let answers = terms(alloc, letters.as_bytes())?;
    let atoms = atoms(alloc, words)?;
    if answers.len() > 16 || atoms.is_empty() {
        return Err(WorkedFault::Misspelt);
    }
    Ok(Query::new(alloc, answers, atoms)?)
}

/// The queries of the texts, in order.
pub fn queries(alloc: Global, texts: &[&str]) -> Result<Vec<Query>, WorkedFault>
    ensures { IfOk result (λ v. vec_len v ≡ length texts.now) }
{
    let mut all = Vec::new(alloc);
    for text in texts {
        all.push(query(alloc, text)?)?;
    }
    Ok(all)
}

/// The rule of the text.
pub fn rule(alloc: Global, text: &str) -> Result<Rule, WorkedFault> {
    let Some((head, body)) = text.split_once(" <- ") else {
        return Err(WorkedFault::Misspelt);
    };
    let heads = atoms(alloc, head)?;
    let body = atoms(alloc, body)?;
    if heads.is_empty() || heads.len() > 32 || body.is_empty() || body.len() > 32 {
        return Err(WorkedFault::Misspelt);
    }
    Ok(Rule::new(alloc, heads, body)?)
}

/// The rules of the texts, in order.
pub fn rules(alloc: Global, texts: &[&str]) -> Result<Vec<Rule>, WorkedFault>
    ensures { IfOk result (λ v. vec_len v ≡ length texts.now) }
{
    let mut all = Vec::new(alloc);
    for text in texts {
        all.push(rule(alloc, text)?)?;
    }
    Ok(all)
}

/// The problem of the rules and the query of these texts.
pub fn problem(alloc: Global, rules_of: &[&str], question: &str) -> Result<Problem, WorkedFault>
    ensures { IfOk result (λ p. length p.rules ≡ length rules_of.now) }
{
    let rules = rules(alloc, rules_of)?;
    if rules.len() > 4_096 {
        return Err(WorkedFault::Misspelt);
    }
    Ok(Problem::new(rules, query(alloc, question)?))
}
