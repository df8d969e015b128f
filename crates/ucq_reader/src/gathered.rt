//! What the statements that were read so far amount to: names, rules, facts and queries.
ghost use Rattle.std.specs.Prelude.{◌≡◌, ◌≤◌, ◌<◌, ◌+◌, ◌-◌, ◌^◌, ℕ, List, [], ◌∷◌, ◌++◌, length, IfOk, IfErr, OnOk};
ghost use Rattle.ucq_reader.specs.declared.ReadFault.TheVariants.{Memory};
ghost use Rattle.ucq_reader.specs.View.{label_view};

use crate::ReadFault;
use crate::building::Numbers;
use crate::input::{Asked, Input, Label};
use crate::names::{Declaration, slice_of};
use crate::syntax::{AtomForm, SentenceForm, Several, StatementForm};
use std::alloc::Global;
use std::marker::Model;
use ucq_lexer::Token;
use ucq_terms::{Atom, QUERIES, Rule};

/// What has been gathered of the statements that were read so far.
#[derive(Drop)]
pub struct Gathered {
    numbers: Numbers,
    rules: Vec<Rule>,
    facts: Vec<Atom>,
    unknowns: u32,
    queries: Vec<Asked>,
    asked: u32,
}

impl Model for Gathered {
    ghost use Rattle.ucq_reader.specs.Gathered.{GatheredValue};

    ghost Value = { GatheredValue };

    ghost view = { λ g.
        record {
          names = g.numbers.names;
          rules = g.rules.items;
          facts = g.facts.items;
          unknowns = g.unknowns;
          queries = g.queries.items;
          asked = g.asked;
        } };
}

impl Gathered {
    ghost use Rattle.ucq_reader.specs.Statement.{spelling};
    ghost use Rattle.ucq_reader.specs.Meaning.{Placed, symbol_atoms};
    ghost use Rattle.ucq_reader.specs.Building.{AddsFact, AddsRule, AddsQuery, HaveFewTerms, IsSafeQuery, query_symbols, rule_symbols, symbols_in, written_asked, written_query, written_rule};
    ghost use Rattle.ucq_reader.specs.Gathered.{IsGathered, IsAccepted};
    ghost use Rattle.ucq_reader.specs.View.{atoms_view, declared_view, statement_view};

    /// Nothing is gathered yet.
    pub fn new(alloc: Global) -> Result<Gathered, ReadFault>
        ensures gathered { IfOk result (λ g. IsGathered [] g) }
        ensures none { IfOk result (λ g. (g.names ≡ []) × (g.unknowns ≡ 0) × (g.asked ≡ 0)) }
        ensures err { IfErr result (λ e. e ≡ Memory) }
    {
        let numbers = Numbers::new(alloc)?;
        Ok(Gathered {
            numbers,
            rules: Vec::new(alloc),
            facts: Vec::new(alloc),
            unknowns: 0,
            queries: Vec::new(alloc),
            asked: 0,
        })
    }

    /// Takes one more statement, which has no refusal of its own and follows these prefix lines of its file. Each of its
    /// names, constants and variables costs the time of a hash of its text, and a prefixed name the search for its prefix
    /// too. After want of memory nothing is known of what is gathered.
    pub fn add(
        &mut self,
        alloc: Global,
        text: &[u8],
        declarations: &[Declaration],
        statement: &StatementForm,
    ) -> Result<(), ReadFault>
        requires accepted { IsAccepted
            (declared_view text.now declarations.now)
            (statement_view text.now statement.now) }
        requires names { length self.old.names +
            length (spelling (statement_view text.now statement.now)) < 2 ^ 32 - 1 }
        requires unknowns { self.old.unknowns +
            length (spelling (statement_view text.now statement.now)) < 2 ^ 32 - 1 }
        requires asked { self.old.asked + length (spelling (statement_view text.now statement.now))
            < 2 ^ 32 - 1 }
        ensures gathered { OnOk
            result
            ((all : List Placed) (file number : ℕ) (starts : List ℕ) →
            IsGathered all self.old →
            IsGathered
            (all ++
            (record {
              file = file;
              number = number;
              starts = starts;
              before = declared_view text.now declarations.now;
              statement = statement_view text.now statement.now;
            })
            ∷ [])
            self.new) }

        // Names and unknown values are words of the statement, and a query has words.
        ensures names_grow { OnOk
            result
            (length self.new.names ≤
            length self.old.names +
            length (spelling (statement_view text.now statement.now))) }
        ensures unknowns_grow { OnOk
            result
            (self.new.unknowns ≤
            self.old.unknowns + length (spelling (statement_view text.now statement.now))) }
        ensures asked_grow { OnOk
            result
            (self.new.asked ≤
            self.old.asked + length (spelling (statement_view text.now statement.now))) }
        ensures err { IfErr result (λ e. e ≡ Memory) }
    {
        match statement {
            StatementForm::Sentence { label, sentence } => match sentence {
                SentenceForm::Fact(atoms) => self.add_fact(alloc, text, declarations, atoms),
                SentenceForm::Rule(heads, body) => {
                    self.add_rule(alloc, text, declarations, heads, body)
                }
                SentenceForm::Query(answers, body) => {
                    self.add_query(alloc, text, declarations, *label, answers, body)
                }
                SentenceForm::Constraint(_) => unreachable!(),
            },
            _ => Ok(()),
        }
    }

    /// Takes a fact statement, whose variables are unknown values of their own.
    fn add_fact(
        &mut self,
        alloc: Global,
        text: &[u8],
        declarations: &[Declaration],
        atoms: &Several<AtomForm>,
    ) -> Result<(), ReadFault>
        requires few { HaveFewTerms atoms.now }
        requires names { length self.old.names +
            length
            (symbols_in
            (symbol_atoms
            (declared_view text.now declarations.now)
            (atoms_view text.now atoms.now)))
            < 2 ^ 32 - 1 }
        requires unknowns { self.old.unknowns +
            length
            (symbols_in
            (symbol_atoms
            (declared_view text.now declarations.now)
            (atoms_view text.now atoms.now)))
            < 2 ^ 32 - 1 }
        ensures added { OnOk
            result
            (AddsFact
            (symbol_atoms (declared_view text.now declarations.now) (atoms_view text.now atoms.now))
            self.old self.new) }
        ensures err { IfErr result (λ e. e ≡ Memory) }
    {
        self.numbers.begin(alloc, self.unknowns)?;
        self.numbers
            .push_atoms(alloc, text, declarations, atoms, &mut self.facts)?;
        self.unknowns += self.numbers.variables.len();
        Ok(())
    }

    /// Takes a rule.
    fn add_rule(
        &mut self,
        alloc: Global,
        text: &[u8],
        declarations: &[Declaration],
        heads: &Several<AtomForm>,
        body: &Several<AtomForm>,
    ) -> Result<(), ReadFault>
        requires head_terms { HaveFewTerms heads.now }
        requires body_terms { HaveFewTerms body.now }
        requires few_heads { length heads.now.others.items < 32 }
        requires few_body { length body.now.others.items < 32 }
        requires names { length self.old.names +
            length (rule_symbols (written_rule text.now declarations.now heads.now body.now))
            < 2 ^ 32 - 1 }
        ensures added { OnOk
            result
            (AddsRule (written_rule text.now declarations.now heads.now body.now) self.old
            self.new) }
        ensures err { IfErr result (λ e. e ≡ Memory) }
    {
        let rule = self.numbers.rule(alloc, text, declarations, heads, body)?;
        self.rules.push(rule)?;
        Ok(())
    }

    /// Takes a query, which is kept where fewer than 64 came before it. Of one more the names are numbered, too.
    fn add_query(
        &mut self,
        alloc: Global,
        text: &[u8],
        declarations: &[Declaration],
        label: Option<Token>,
        answers: &Option<Vec<Token>>,
        body: &Several<AtomForm>,
    ) -> Result<(), ReadFault>
        requires body_terms { HaveFewTerms body.now }
        requires few_body { length body.now.others.items < 32 }
        requires few_answers { length
            (written_query text.now declarations.now answers.now body.now).answers ≤ 16 }
        requires safe { IsSafeQuery (written_query text.now declarations.now answers.now body.now) }
        requires names { length self.old.names +
            length
            (query_symbols (written_query text.now declarations.now answers.now body.now))
            < 2 ^ 32 - 1 }
        requires asked { self.old.asked + 1 < 2 ^ 32 }
        ensures added { OnOk
            result
            (AddsQuery (written_asked text.now declarations.now label answers.now body.now) self.old
            self.new) }
        ensures err { IfErr result (λ e. e ≡ Memory) }
    {
        let query = self
            .numbers
            .query(alloc, text, declarations, answers, body)?;
        let before = self.asked;
        self.asked += 1;
        if before >= QUERIES {
            return Ok(());
        }
        let label = label_of(alloc, text, label)?;
        self.queries.push(Asked { label, query })?;
        Ok(())
    }

    /// How many rules there are.
    pub fn rule_count(&self) -> usize
        ensures { result ≡ length self.now.rules }
    {
        self.rules.len()
    }

    /// How many atoms the facts have, as they are written.
    pub fn fact_count(&self) -> usize
        ensures { result ≡ length self.now.facts }
    {
        self.facts.len()
    }

    /// How many queries were asked.
    pub fn query_count(&self) -> u32
        ensures { result ≡ self.now.asked }
    {
        self.asked
    }

    ghost use Rattle.ucq_reader.specs.Outcome.{input_value};

    /// The parts, with the queries that are kept.
    pub fn into_input(self) -> Input
        ensures names { (input_value result).names ≡ self.names }
        ensures rules { (input_value result).rules ≡ self.rules }
        ensures facts { (input_value result).facts ≡ self.facts }
        ensures queries { (input_value result).queries ≡ self.queries }
    {
        let Gathered {
            numbers,
            rules,
            facts,
            queries,
            ..
        } = self;
        Input {
            names: numbers.names,
            rules,
            queries,
            facts,
        }
    }
}

/// The label that this token is.
fn label_of(alloc: Global, text: &[u8], token: Option<Token>) -> Result<Option<Label>, ReadFault>
    ensures label { IfOk result (λ label. label ≡ label_view text.now token) }
    ensures err { IfErr result (λ e. e ≡ Memory) }
{
    match token {
        Some(token) => Ok(Some(Label::new(alloc, slice_of(text, token))?)),
        None => Ok(None),
    }
}
