//! Terms and atoms, built of a statement's tokens.
ghost use Rattle.std.specs.Prelude.{◌≡◌, ◌<◌, ◌≤◌, ◌+◌, ◌-◌, ◌^◌, ◌∷◌, [], All, length, map, vec_len, OnOk, IfOk, IfErr};
ghost use Rattle.ucq_reader.specs.declared.ReadFault.TheVariants.{Memory};
ghost use Rattle.ucq_reader.specs.Names.{expanded, inner_bytes, name_text};
ghost use Rattle.ucq_reader.specs.Meaning.{answer_terms, constant, symbol, symbol_atoms};
ghost use Rattle.ucq_reader.specs.Input.{IsQueryOf, rule_value};
ghost use Rattle.ucq_terms.specs.Syntax.{IsSafe};
ghost use Rattle.ucq_terms.specs.Numbering.{normal_query};
ghost use Rattle.ucq_reader.specs.View.{answers_view, atoms_view, bytes_of, declared_view, name_view};
ghost use Rattle.ucq_reader.specs.Building.{AddsAtoms, AddsTerms, HasFewTerms, HasNumbered, HasRoom, HaveFewTerms, IsAtomOf, IsNumberOf, IsSafeQuery, IsTermOf, atom_symbols, constants_of, form_atom, query_symbols, rule_symbols, symbols_in, token_symbol, with_names, written_query, written_rule};

use crate::ReadFault;
use crate::names::{Declaration, declared, slice_of, split_prefixed};
use crate::syntax::{AtomForm, Several};
use std::alloc::{AllocError, Global};
use ucq_lexer::{Kind, Token};
use ucq_terms::{Atom, Names, Query, QueryFault, Rule, Term};

/// The tables that give texts their numbers: the names of all statements, and the variables of the one that is built,
/// whose numbers begin at `first`.
#[derive(Drop)]
pub(crate) struct Numbers {
    pub(crate) names: Names,
    pub(crate) variables: Names,
    pub(crate) first: u32,
    // room for a name that is expanded
    pub(crate) spelled: Vec<u8>,
}

/// What stands between the first byte and the last.
fn inner(bytes: &[u8]) -> &[u8]
    ensures { result.now ≡ inner_bytes bytes.now }
{
    let rest = &bytes[bytes.len().min(1)..];
    &rest[..bytes.len().saturating_sub(2)]
}

/// Writes the expansion of a prefixed name in place of what stood there.
fn spell(
    spelled: &mut Vec<u8>,
    text: &[u8],
    declarations: &[Declaration],
    token: Token,
) -> Result<(), AllocError>
    ensures { OnOk
        result
        (spelled.new.items ≡
        expanded (declared_view text.now declarations.now) (bytes_of text.now token)) }
{
    let bytes = slice_of(text, token);
    let (prefix, local) = split_prefixed(bytes);
    spelled.clear();
    match declared(text, declarations, prefix) {
        Some(iri) => {
            spelled.extend_from_slice(b"<".as_slice())?;
            spelled.extend_from_slice(inner(slice_of(text, iri)))?;
            spelled.extend_from_slice(local)?;
            spelled.extend_from_slice(b">".as_slice())
        }
        None => spelled.extend_from_slice(bytes),
    }
}

impl Numbers {
    /// No names, and no statement is being built.
    pub(crate) fn new(alloc: Global) -> Result<Numbers, ReadFault>
        ensures names { IfOk result (λ n. n.names ≡ []) }
        ensures variables { IfOk result (λ n. n.variables ≡ []) }
        ensures err { IfErr result (λ e. e ≡ Memory) }
    {
        Ok(Numbers {
            names: Names::new(alloc)?,
            variables: Names::new(alloc)?,
            first: 0,
            spelled: Vec::new(alloc),
        })
    }

    /// A statement begins, whose variables have numbers from `first` on.
    pub(crate) fn begin(&mut self, alloc: Global, first: u32) -> Result<(), ReadFault>
        ensures names { OnOk result (self.new.names ≡ self.old.names) }
        ensures variables { OnOk result (self.new.variables ≡ []) }
        ensures first { OnOk result (self.new.first ≡ first) }
        ensures err { IfErr result (λ e. e ≡ Memory) }
    {
        self.variables = Names::new(alloc)?;
        self.first = first;
        Ok(())
    }

    /// The number of a name, a constant or a number that is written so.
    fn name(
        &mut self,
        text: &[u8],
        declarations: &[Declaration],
        token: Token,
    ) -> Result<u32, ReadFault>
        requires { HasRoom self.old 1 }
        ensures numbered { OnOk
            result
            (HasNumbered
            self.old
            self.new
            (constant
            (name_text
            (declared_view text.now declarations.now)
            (name_view text.now token))
            ∷ [])) }
        ensures number { IfOk result (λ n.
            IsNumberOf self.new.names
            (name_text (declared_view text.now declarations.now) (name_view text.now token))
            n) }
        ensures err { IfErr result (λ e. e ≡ Memory) }
    {
        match token.kind {
            Kind::Prefixed => {
                spell(&mut self.spelled, text, declarations, token)?;
                Ok(self.names.number(self.spelled.as_slice())?)
            }
            _ => Ok(self.names.number(slice_of(text, token))?),
        }
    }

    /// The term of a token.
    fn term(
        &mut self,
        text: &[u8],
        declarations: &[Declaration],
        token: Token,
    ) -> Result<Term, ReadFault>
        requires { HasRoom self.old 1 }
        ensures numbered { OnOk
            result
            (HasNumbered self.old self.new (token_symbol text.now declarations.now token ∷ [])) }
        ensures term { IfOk result (λ t.
            IsTermOf self.new (token_symbol text.now declarations.now token) t) }
        ensures err { IfErr result (λ e. e ≡ Memory) }
    {
        match token.kind {
            Kind::Variable => {
                let place = self.variables.number(slice_of(text, token))?;
                Ok(Term::Variable(self.first + place))
            }
            _ => {
                let number = self.name(text, declarations, token)?;
                Ok(Term::Constant(number))
            }
        }
    }

    /// Adds the terms of these tokens.
    pub(crate) fn push_terms(
        &mut self,
        text: &[u8],
        declarations: &[Declaration],
        tokens: &[Token],
        built: &mut Vec<Term>,
    ) -> Result<(), ReadFault>
        requires { HasRoom self.old (length tokens.now) }
        ensures numbered { OnOk
            result
            (HasNumbered
            self.old
            self.new
            (map (token_symbol text.now declarations.now) tokens.now)) }
        ensures terms { OnOk
            result
            (AddsTerms self.new (map (token_symbol text.now declarations.now) tokens.now)
            built.old.items built.new.items) }
        ensures err { IfErr result (λ e. e ≡ Memory) }
    {
        for token in tokens {
            let term = self.term(text, declarations, *token)?;
            built.push(term)?;
        }
        Ok(())
    }

    /// The atom of a predicate's name and its terms.
    fn atom(
        &mut self,
        alloc: Global,
        text: &[u8],
        declarations: &[Declaration],
        form: &AtomForm,
    ) -> Result<Atom, ReadFault>
        requires few { HasFewTerms form.now }
        requires room { HasRoom
            self.old
            (length (atom_symbols (form_atom text.now declarations.now form.now))) }
        ensures numbered { OnOk
            result
            (HasNumbered
            self.old
            self.new
            (atom_symbols (form_atom text.now declarations.now form.now))) }
        ensures atom { IfOk result (λ a.
            IsAtomOf self.new (form_atom text.now declarations.now form.now) a) }
        ensures err { IfErr result (λ e. e ≡ Memory) }
    {
        let name = self.name(text, declarations, form.name)?;
        let mut terms = Vec::with_capacity(alloc, form.terms.others.len() + 1)?;
        let first = self.term(text, declarations, form.terms.first)?;
        terms.push(first)?;
        self.push_terms(text, declarations, form.terms.others.as_slice(), &mut terms)?;
        Ok(Atom::new(name, terms))
    }

    /// Adds the atoms of a list.
    fn push_each(
        &mut self,
        alloc: Global,
        text: &[u8],
        declarations: &[Declaration],
        forms: &[AtomForm],
        built: &mut Vec<Atom>,
    ) -> Result<(), ReadFault>
        requires few { All HasFewTerms forms.now }
        requires room { HasRoom
            self.old
            (length (symbols_in (map (form_atom text.now declarations.now) forms.now))) }
        ensures numbered { OnOk
            result
            (HasNumbered
            self.old
            self.new
            (symbols_in (map (form_atom text.now declarations.now) forms.now))) }
        ensures atoms { OnOk
            result
            (AddsAtoms self.new (map (form_atom text.now declarations.now) forms.now)
            built.old.items built.new.items) }
        ensures err { IfErr result (λ e. e ≡ Memory) }
    {
        for form in forms {
            let atom = self.atom(alloc, text, declarations, form)?;
            built.push(atom)?;
        }
        Ok(())
    }

    /// Adds the atoms of a statement.
    pub(crate) fn push_atoms(
        &mut self,
        alloc: Global,
        text: &[u8],
        declarations: &[Declaration],
        forms: &Several<AtomForm>,
        built: &mut Vec<Atom>,
    ) -> Result<(), ReadFault>
        requires few { HaveFewTerms forms.now }
        requires room { HasRoom
            self.old
            (length
            (symbols_in
            (symbol_atoms
            (declared_view text.now declarations.now)
            (atoms_view text.now forms.now)))) }
        ensures numbered { OnOk
            result
            (HasNumbered
            self.old
            self.new
            (symbols_in
            (symbol_atoms
            (declared_view text.now declarations.now)
            (atoms_view text.now forms.now)))) }
        ensures atoms { OnOk
            result
            (AddsAtoms self.new
            (symbol_atoms (declared_view text.now declarations.now) (atoms_view text.now forms.now))
            built.old.items built.new.items) }
        ensures err { IfErr result (λ e. e ≡ Memory) }
    {
        let atom = self.atom(alloc, text, declarations, &forms.first)?;
        built.push(atom)?;
        self.push_each(alloc, text, declarations, forms.others.as_slice(), built)?;
        Ok(())
    }

    /// The rule of this head and this body, in a statement of its own.
    pub(crate) fn rule(
        &mut self,
        alloc: Global,
        text: &[u8],
        declarations: &[Declaration],
        heads: &Several<AtomForm>,
        body: &Several<AtomForm>,
    ) -> Result<Rule, ReadFault>
        requires head_terms { HaveFewTerms heads.now }
        requires body_terms { HaveFewTerms body.now }
        requires few_heads { length heads.now.others.items < 32 }
        requires few_body { length body.now.others.items < 32 }
        requires names { length self.old.names +
            length (rule_symbols (written_rule text.now declarations.now heads.now body.now))
            < 2 ^ 32 - 1 }
        ensures names { OnOk
            result
            (self.new.names ≡
            with_names
            self.old.names
            (constants_of
            (rule_symbols
            (written_rule text.now declarations.now heads.now body.now)))) }
        ensures rule { IfOk result (λ r.
            r ≡
            rule_value
            self.new.names
            (written_rule text.now declarations.now heads.now body.now)) }
        ensures err { IfErr result (λ e. e ≡ Memory) }
    {
        let mut head_atoms = Vec::new(alloc);
        let mut body_atoms = Vec::new(alloc);
        self.begin(alloc, 0)?;
        self.push_atoms(alloc, text, declarations, heads, &mut head_atoms)?;
        self.push_atoms(alloc, text, declarations, body, &mut body_atoms)?;
        let rule = Rule::new(alloc, head_atoms, body_atoms)?;
        Ok(rule)
    }

    /// The query of these answers and atoms, in a statement of its own.
    pub(crate) fn query(
        &mut self,
        alloc: Global,
        text: &[u8],
        declarations: &[Declaration],
        answers: &Option<Vec<Token>>,
        body: &Several<AtomForm>,
    ) -> Result<Query, ReadFault>
        requires terms { HaveFewTerms body.now }
        requires few_atoms { length body.now.others.items < 32 }
        requires few_answers { length
            (written_query text.now declarations.now answers.now body.now).answers ≤ 16 }
        requires safe { IsSafeQuery (written_query text.now declarations.now answers.now body.now) }
        requires names { length self.old.names +
            length
            (query_symbols (written_query text.now declarations.now answers.now body.now))
            < 2 ^ 32 - 1 }
        ensures names { OnOk
            result
            (self.new.names ≡
            with_names
            self.old.names
            (constants_of
            (query_symbols
            (written_query text.now declarations.now answers.now body.now)))) }
        ensures query { IfOk result (λ q.
            IsQueryOf self.new.names
            (written_query text.now declarations.now answers.now body.now) q) }
        ensures err { IfErr result (λ e. e ≡ Memory) }
    {
        let mut terms = Vec::new(alloc);
        let mut atoms = Vec::new(alloc);
        self.begin(alloc, 0)?;
        self.push_answers(text, declarations, answers, &mut terms)?;
        self.push_atoms(alloc, text, declarations, body, &mut atoms)?;
        let query = stored_query(alloc, terms, atoms)?;
        Ok(query)
    }

    /// Adds the answers of a query, of which there are none where none are written.
    fn push_answers(
        &mut self,
        text: &[u8],
        declarations: &[Declaration],
        answers: &Option<Vec<Token>>,
        built: &mut Vec<Term>,
    ) -> Result<(), ReadFault>
        requires { HasRoom
            self.old
            (length
            (map
            (symbol (declared_view text.now declarations.now))
            (answer_terms (answers_view text.now answers.now)))) }
        ensures numbered { OnOk
            result
            (HasNumbered
            self.old
            self.new
            (map
            (symbol (declared_view text.now declarations.now))
            (answer_terms (answers_view text.now answers.now)))) }
        ensures terms { OnOk
            result
            (AddsTerms
            self.new
            (map
            (symbol (declared_view text.now declarations.now))
            (answer_terms (answers_view text.now answers.now)))
            built.old.items
            built.new.items) }
        ensures err { IfErr result (λ e. e ≡ Memory) }
    {
        match answers {
            Some(tokens) => {
                self.push_terms(text, declarations, tokens.as_slice(), built)?;
                Ok(())
            }
            None => Ok(()),
        }
    }
}

/// The stored query of these answers and atoms, which make one.
pub(crate) fn stored_query(
    alloc: Global,
    answers: Vec<Term>,
    atoms: Vec<Atom>,
) -> Result<Query, ReadFault>
    requires few_answers { vec_len answers ≤ 16 }
    requires few_atoms { vec_len atoms ≤ 32 }
    requires safe { IsSafe (record { answers = answers.items; atoms = atoms.items }) }
    ensures query { IfOk result (λ q.
        q ≡ normal_query (record { answers = answers.items; atoms = atoms.items })) }
    ensures err { IfErr result (λ e. e ≡ Memory) }
{
    match Query::new(alloc, answers, atoms) {
        Ok(query) => Ok(query),
        Err(QueryFault::Memory) => Err(ReadFault::Memory),
        Err(QueryFault::Unsafe { .. }) => unreachable!(),
        Err(QueryFault::TooManyAtoms { .. }) => unreachable!(),
    }
}
