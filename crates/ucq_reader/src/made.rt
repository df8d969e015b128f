//! Inputs that are made for a number, and not read: a chain of rules, a query under them, and facts along the chain.
ghost use Rattle.std.specs.Prelude.{◌≡◌, ◌≤◌, ◌<◌, ◌+◌, ◌-◌, ◌*◌, ◌^◌, [], ◌∷◌, length, vec_len, IfOk, OnOk, codes, string_bytes};
ghost use Rattle.ucq_terms.specs.declared.TheConstants.{FACTS, QUERIES, RULES};
ghost use Rattle.ucq_terms.specs.Names.{with_name};
ghost use Rattle.ucq_reader.specs.Meaning.{constant};
ghost use Rattle.ucq_reader.specs.Input.{HasNumbersOf, IsQueryOf, rule_value};
ghost use Rattle.ucq_reader.specs.Building.{AddsFact, AddsQuery, AddsRule, IsNumberOf, with_names};
ghost use Rattle.ucq_reader.specs.Outcome.{input_value};
ghost use Rattle.ucq_reader.specs.Made.{binary, chain_rule, last_fact, last_rule, made, made_query, numbered, pair_fact, query_texts, rule_texts, unary};
ghost use Rattle.ucq_reader.specs.inner.Making.{HasChain, HasFacts, HasPairs, HasRules, AreMadeAtoms, IsMadeAtom, unlabelled};

use crate::building::stored_query;
use crate::input::{Asked, Input};
use std::alloc::{AllocError, Global};
use std::marker::Model;
use ucq_terms::{Atom, Names, NoMemory, Query, Rule, Term};

// The variables of a rule and of the query, in order of first occurrence.
const X: Term = Term::Variable(0);

const Y: Term = Term::Variable(1);

/// The input that the generator makes for this number: `ci(X) :- cj(X).` for each `i` below it, where `j` is `i + 1`, and
/// `r(X,Y), c0(Y) :- d(X).`; the query `?(X) :- r(X,Y), c0(Y).`; and `r(ui,vi), ci(vi).` for each `i` up to it, and `d(w).`
pub fn made_input(alloc: Global, n: u32) -> Result<Input, NoMemory>
    requires some { 1 ≤ n }
    requires few { n ≤ 4000 }
    ensures numbered { IfOk result (λ input. HasNumbersOf (made n) (input_value input)) }

    // So the rules, the facts and the queries are within the limits of what is read.
    ensures rules { IfOk result (λ input. length (input_value input).rules ≤ RULES) }
    ensures facts { IfOk result (λ input. length (input_value input).facts ≤ FACTS) }
    ensures queries { IfOk result (λ input.
        (0 < length (input_value input).queries) ×
        (length (input_value input).queries ≤ QUERIES)) }
    ensures one_query { IfOk result (λ input. length (input_value input).queries ≡ 1) }
{
    let mut parts = Parts::new(alloc)?;
    parts.push_rules(alloc, n)?;
    parts.ask(alloc)?;
    parts.push_facts(alloc, n)?;
    Ok(parts.into_input())
}

/// A name with a number behind it.
fn numbered(alloc: Global, name: &str, i: u32) -> Result<String, AllocError>
    ensures { IfOk result (λ text. string_bytes text ≡ numbered name.now i) }
{
    format!(in alloc; "{name}{i}")
}

/// The atom of this name and these terms.
fn atom(alloc: Global, names: &mut Names, name: &[u8], terms: &[Term]) -> Result<Atom, NoMemory>
    requires some { 0 < length terms.now }
    requires few { length terms.now ≤ 16 }
    requires names { length names.old < 2 ^ 32 - 1 }
    ensures names { OnOk result (names.new ≡ with_name names.old name.now) }
    ensures name { IfOk result (λ a. IsNumberOf names.new name.now a.name) }
    ensures terms { IfOk result (λ a. a.terms ≡ terms.now) }
{
    let name = names.number(name)?;
    Ok(Atom::new(name, Vec::from_slice(alloc, terms)?))
}

/// The atom of this name and this one constant.
fn unary(alloc: Global, names: &mut Names, name: &[u8], argument: &[u8]) -> Result<Atom, NoMemory>
    requires { length names.old + 2 < 2 ^ 32 - 1 }
    ensures names { OnOk result (names.new ≡ with_names names.old (name.now ∷ argument.now ∷ [])) }
    ensures atom { IfOk result (IsMadeAtom names.new (unary name.now (constant argument.now))) }
{
    let name = names.number(name)?;
    let argument = names.number(argument)?;
    let terms = Vec::from_slice(alloc, &[Term::Constant(argument)])?;
    Ok(Atom::new(name, terms))
}

/// The atom of this name and these two constants.
fn binary(
    alloc: Global,
    names: &mut Names,
    name: &[u8],
    first: &[u8],
    second: &[u8],
) -> Result<Atom, NoMemory>
    requires { length names.old + 3 < 2 ^ 32 - 1 }
    ensures names { OnOk
        result
        (names.new ≡ with_names names.old (name.now ∷ first.now ∷ second.now ∷ [])) }
    ensures atom { IfOk
        result
        (IsMadeAtom names.new (binary name.now (constant first.now) (constant second.now))) }
{
    let name = names.number(name)?;
    let first = names.number(first)?;
    let second = names.number(second)?;
    let terms = Vec::from_slice(alloc, &[Term::Constant(first), Term::Constant(second)])?;
    Ok(Atom::new(name, terms))
}

/// The rule of the chain with this number.
fn chain_rule(alloc: Global, names: &mut Names, i: u32) -> Result<Rule, NoMemory>
    requires names { length names.old + 2 < 2 ^ 32 - 1 }
    requires number { i < 4000 }
    ensures names { OnOk result (names.new ≡ with_names names.old (rule_texts (chain_rule i))) }
    ensures rule { IfOk result (λ r. r ≡ rule_value names.new (chain_rule i)) }
{
    let lower = numbered(alloc, "c", i)?;
    let upper = numbered(alloc, "c", i + 1)?;
    let head = atom(alloc, names, lower.as_bytes(), &[X])?;
    let body = atom(alloc, names, upper.as_bytes(), &[X])?;
    let heads = vec![in alloc; head]?;
    let rule = Rule::new(alloc, heads, vec![in alloc; body]?)?;
    Ok(rule)
}

/// The atoms `r(X,Y)` and `c0(Y)`.
fn value_atoms(alloc: Global, names: &mut Names) -> Result<Vec<Atom>, NoMemory>
    requires { length names.old + 2 < 2 ^ 32 - 1 }
    ensures names { OnOk result (names.new ≡ with_names names.old (codes "r" ∷ codes "c0" ∷ [])) }
    ensures atoms { IfOk result (λ atoms. AreMadeAtoms names.new made_query.atoms atoms.items) }
    ensures two { IfOk result (λ atoms. vec_len atoms ≡ 2) }
{
    let pair = atom(alloc, names, b"r".as_slice(), &[X, Y])?;
    let lowest = atom(alloc, names, b"c0".as_slice(), &[Y])?;
    let atoms = vec![in alloc; pair, lowest]?;
    Ok(atoms)
}

/// The rule that gives a value to each `d`.
fn last_rule(alloc: Global, names: &mut Names) -> Result<Rule, NoMemory>
    requires { length names.old + 3 < 2 ^ 32 - 1 }
    ensures names { OnOk result (names.new ≡ with_names names.old (rule_texts last_rule)) }
    ensures rule { IfOk result (λ r. r ≡ rule_value names.new last_rule) }
{
    let heads = value_atoms(alloc, names)?;
    let body = atom(alloc, names, b"d".as_slice(), &[X])?;
    let rule = Rule::new(alloc, heads, vec![in alloc; body]?)?;
    Ok(rule)
}

/// The query for what has a value.
fn query(alloc: Global, names: &mut Names) -> Result<Query, NoMemory>
    requires { length names.old + 2 < 2 ^ 32 - 1 }
    ensures names { OnOk result (names.new ≡ with_names names.old (query_texts made_query)) }
    ensures query { IfOk result (IsQueryOf names.new made_query) }
{
    let atoms = value_atoms(alloc, names)?;
    match stored_query(alloc, vec![in alloc; X]?, atoms) {
        Ok(query) => Ok(query),
        Err(_) => Err(NoMemory),
    }
}

/// The parts of an input, as far as they are made.
#[derive(Drop)]
struct Parts {
    names: Names,
    rules: Vec<Rule>,
    queries: Vec<Asked>,
    facts: Vec<Atom>,
}

impl Model for Parts {
    ghost use Rattle.std.specs.Prelude.{length};
    ghost use Rattle.ucq_reader.specs.Gathered.{GatheredValue};

    ghost Value = { GatheredValue };

    ghost view = { λ p.
        record {
          names = p.names;
          rules = p.rules.items;
          facts = p.facts.items;
          unknowns = 0;
          queries = p.queries.items;
          asked = length p.queries.items;
        } };
}

impl Parts {
    /// Nothing is made yet.
    fn new(alloc: Global) -> Result<Parts, NoMemory>
        ensures { IfOk result (HasChain 0) }
    {
        Ok(Parts {
            names: Names::new(alloc)?,
            rules: Vec::new(alloc),
            queries: Vec::new(alloc),
            facts: Vec::new(alloc),
        })
    }

    /// Adds the rules.
    fn push_rules(&mut self, alloc: Global, n: u32) -> Result<(), NoMemory>
        requires none { HasChain 0 self.old }
        requires few { n ≤ 4000 }
        ensures { OnOk result (HasRules n self.new) }
    {
        for i in 0..n {
            self.push_chain_rule(alloc, i)?;
        }
        self.push_last_rule(alloc)?;
        Ok(())
    }

    fn push_chain_rule(&mut self, alloc: Global, i: u32) -> Result<(), NoMemory>
        requires number { i < 4000 }
        requires names { length self.old.names ≤ 2 * i }
        ensures { OnOk result (AddsRule (chain_rule i) self.old self.new) }
    {
        let rule = chain_rule(alloc, &mut self.names, i)?;
        self.rules.push(rule)?;
        Ok(())
    }

    fn push_last_rule(&mut self, alloc: Global) -> Result<(), NoMemory>
        requires names { length self.old.names ≤ 2 * 4000 }
        ensures { OnOk result (AddsRule last_rule self.old self.new) }
    {
        let rule = last_rule(alloc, &mut self.names)?;
        self.rules.push(rule)?;
        Ok(())
    }

    /// Asks the query.
    fn ask(&mut self, alloc: Global) -> Result<(), NoMemory>
        requires none { self.old.asked ≡ 0 }
        requires names { length self.old.names < 2 ^ 20 }
        ensures { OnOk result (AddsQuery (unlabelled made_query) self.old self.new) }
    {
        let query = query(alloc, &mut self.names)?;
        self.queries.push(Asked { label: None, query })?;
        Ok(())
    }

    /// Adds the fact statements.
    fn push_facts(&mut self, alloc: Global, n: u32) -> Result<(), NoMemory>
        requires none { HasPairs n 0 self.old }
        requires few { n ≤ 4000 }
        ensures { OnOk result (HasFacts n self.new) }
    {
        for i in 0..n + 1 {
            self.push_pair(alloc, i)?;
        }
        self.push_last_fact(alloc)?;
        Ok(())
    }

    fn push_pair(&mut self, alloc: Global, i: u32) -> Result<(), NoMemory>
        requires names { length self.old.names < 2 ^ 20 }
        ensures { OnOk result (AddsFact (pair_fact i) self.old self.new) }
    {
        let u = numbered(alloc, "u", i)?;
        let v = numbered(alloc, "v", i)?;
        let c = numbered(alloc, "c", i)?;
        let pair = binary(
            alloc,
            &mut self.names,
            b"r".as_slice(),
            u.as_bytes(),
            v.as_bytes(),
        )?;
        let class = unary(alloc, &mut self.names, c.as_bytes(), v.as_bytes())?;
        self.facts.push(pair)?;
        self.facts.push(class)?;
        Ok(())
    }

    fn push_last_fact(&mut self, alloc: Global) -> Result<(), NoMemory>
        requires names { length self.old.names < 2 ^ 20 }
        ensures { OnOk result (AddsFact last_fact self.old self.new) }
    {
        let fact = unary(alloc, &mut self.names, b"d".as_slice(), b"w".as_slice())?;
        self.facts.push(fact)?;
        Ok(())
    }

    /// The input of these parts.
    fn into_input(self) -> Input
        ensures names { (input_value result).names ≡ self.names }
        ensures rules { (input_value result).rules ≡ self.rules }
        ensures facts { (input_value result).facts ≡ self.facts }
        ensures queries { (input_value result).queries ≡ self.queries }
    {
        let Parts {
            names,
            rules,
            queries,
            facts,
        } = self;
        Input {
            names,
            rules,
            queries,
            facts,
        }
    }
}
