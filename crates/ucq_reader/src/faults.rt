//! Why a statement of the grammar is refused.
ghost use Rattle.std.specs.Prelude.{◌≡◌, ◌≤◌, ◌<◌, ◌∷◌, ◌^◌, [], ℕ, List, length, map, IfSome};
ghost use Rattle.ucq_lexer.specs.declared.TheConstants.{BYTES};
ghost use Rattle.std.specs.List.{filter_map, list_any};
ghost use Rattle.ucq_reader.specs.Names.{expanded, word_text};
ghost use Rattle.ucq_reader.specs.Meaning.{mapped, listed, first_above, arity as spec_arity, first_unknown, first_loose as spec_first_loose, is_variable as spec_is_variable, has_variable as spec_has_variable, is_loose as spec_is_loose, limited_atoms, limit as spec_limit, passed_limit as spec_passed_limit, not_built as spec_not_built, statement_fault as spec_statement_fault, unsafe_answer as spec_unsafe_answer, texts_of, written_answers, written_atoms};
ghost use Rattle.ucq_reader.specs.Input.{words, starts};
ghost use Rattle.ucq_reader.specs.inner.Placing.{IsSpelledBy, placed_view};
ghost use Rattle.ucq_reader.specs.View.{atom_view, atoms_view, declared_view, sentence_view, statement_view, term_view, word_at};

use crate::names::{Declaration, declared, is_undeclared, slice_of, split_prefixed};
use crate::syntax::{AtomForm, SentenceForm, Several, StatementForm};
use crate::{NotBuiltKind, ReadFault, Which};
use ucq_lexer::{Kind, Token};

/// A statement's file, and its number there.
#[derive(Clone, Copy, Debug, PartialEq, Eq)]
pub struct Place {
    pub file: u32,
    pub number: u32,
}

/// The most bytes of a name.
const NAME_BYTES: usize = 1024;

/// The most terms of an atom, and of an answer list.
const TERMS: usize = 16;

/// The most atoms of a head, and of a body.
const ATOMS: usize = 32;

/// The refusal of the first Prefixed token whose prefix isn't declared.
fn unknown_prefix(
    text: &[u8],
    declarations: &[Declaration],
    file: u32,
    tokens: &[Token],
) -> Option<ReadFault>
    ensures { result ≡
        first_unknown
        (declared_view text.now declarations.now)
        file
        (words text.now tokens.now)
        (starts tokens.now) }
{
    for token in tokens {
        if is_undeclared(text, declarations, *token) {
            return Some(ReadFault::UnknownPrefix {
                file,
                at: token.start,
            });
        }
    }
    None
}

/// The refusal of a form that isn't built.
fn not_built(place: Place, form: &StatementForm) -> Option<ReadFault>
    ensures { (text : List ℕ) →
        result ≡ spec_not_built (placed_view place.file place.number text [] [] form.now) }
{
    let kind = match form {
        StatementForm::Base { .. } => NotBuiltKind::Base,
        StatementForm::Top { .. } => NotBuiltKind::Top,
        StatementForm::Sentence {
            sentence: SentenceForm::Constraint(_),
            ..
        } => NotBuiltKind::Constraint,
        _ => return None,
    };
    Some(ReadFault::NotBuilt {
        file: place.file,
        number: place.number,
        kind,
    })
}

/// How many bytes the text of a Prefixed token has.
fn expanded_length(text: &[u8], declarations: &[Declaration], bytes: &[u8]) -> usize
    requires text { length text.now ≤ BYTES }
    requires bytes { length bytes.now ≤ BYTES }
    ensures value { result ≡ length (expanded (declared_view text.now declarations.now) bytes.now) }
    ensures small { result ≤ 2 ^ 28 }
{
    let (prefix, local) = split_prefixed(bytes);
    match declared(text, declarations, prefix) {
        Some(iri) => {
            let inner = slice_of(text, iri).len().saturating_sub(2);
            inner + local.len() + 2
        }
        None => bytes.len(),
    }
}

/// How many bytes the text of a name, a constant or a number has.
fn name_length(text: &[u8], declarations: &[Declaration], token: Token) -> Option<usize>
    requires { length text.now ≤ BYTES }
    ensures value { result ≡
        mapped
        length
        (word_text (declared_view text.now declarations.now) (word_at text.now token)) }
    ensures small { IfSome result (λ n. n ≤ 2 ^ 28) }
{
    let bytes = slice_of(text, token);
    match token.kind {
        Kind::Identifier | Kind::Iri | Kind::Integer | Kind::Text => Some(bytes.len()),
        Kind::Prefixed => Some(expanded_length(text, declarations, bytes)),
        _ => None,
    }
}

/// The length of the first name that is too long.
fn long_name(text: &[u8], declarations: &[Declaration], tokens: &[Token]) -> Option<usize>
    requires { length text.now ≤ BYTES }
    ensures value { result ≡
        first_above
        1024
        (map
        length
        (filter_map
        (word_text (declared_view text.now declarations.now))
        (words text.now tokens.now))) }
    ensures small { IfSome result (λ n. n ≤ 2 ^ 28) }
{
    for token in tokens {
        match name_length(text, declarations, *token) {
            Some(length) if length > NAME_BYTES => return Some(length),
            _ => {}
        }
    }
    None
}

/// The length of the first name of the statement that is too long.
fn long_name_of(
    text: &[u8],
    declarations: &[Declaration],
    tokens: &[Token],
    form: &StatementForm,
) -> Option<usize>
    requires text { length text.now ≤ BYTES }
    requires spelled { IsSpelledBy text.now tokens.now form.now }
    ensures value { result ≡
        first_above
        1024
        (map length (texts_of (placed_view 0 0 text.now declarations.now [] form.now))) }
    ensures small { IfSome result (λ n. n ≤ 2 ^ 28) }
{
    match form {
        StatementForm::Sentence { .. } => long_name(text, declarations, tokens),
        _ => None,
    }
}

/// The count, where it passes the limit.
fn above(limit: usize, count: usize) -> Option<usize>
    ensures { result ≡ first_above limit (count ∷ []) }
{
    if count > limit { Some(count) } else { None }
}

/// How many terms it has.
fn arity(atom: &AtomForm) -> usize
    ensures { (text : List ℕ) → result ≡ spec_arity (atom_view text atom.now) }
{
    atom.terms.others.len() + 1
}

/// The arity of the first atom that has too many terms.
fn wide_atom(atoms: &Several<AtomForm>) -> Option<usize>
    ensures { (text : List ℕ) →
        result ≡ first_above 16 (map spec_arity (listed (atoms_view text atoms.now))) }
{
    let first = arity(&atoms.first);
    if first > TERMS {
        return Some(first);
    }
    for atom in atoms.others.iter() {
        let count = arity(atom);
        if count > TERMS {
            return Some(count);
        }
    }
    None
}

/// The arity of the first atom of the statement that has too many terms.
fn wide_atom_of(form: &StatementForm) -> Option<usize>
    ensures { (text : List ℕ) →
        result ≡ first_above 16 (map spec_arity (written_atoms (statement_view text form.now))) }
{
    match form {
        StatementForm::Sentence { sentence, .. } => match sentence {
            SentenceForm::Fact(atoms) => wide_atom(atoms),
            SentenceForm::Rule(head, body) => match wide_atom(head) {
                Some(count) => Some(count),
                None => wide_atom(body),
            },
            SentenceForm::Query(_, body) | SentenceForm::Constraint(body) => wide_atom(body),
        },
        _ => None,
    }
}

/// The number of the answers, where there are too many.
fn many_answers(form: &StatementForm) -> Option<usize>
    ensures { (text : List ℕ) →
        result ≡ first_above 16 (length (written_answers (statement_view text form.now)) ∷ []) }
{
    match form {
        StatementForm::Sentence {
            sentence: SentenceForm::Query(Some(answers), _),
            ..
        } => above(TERMS, answers.len()),
        _ => None,
    }
}

/// The number of the atoms, where there are too many.
fn many_atoms(atoms: &Several<AtomForm>) -> Option<usize>
    ensures { (text : List ℕ) →
        result ≡ first_above 32 (length (listed (atoms_view text atoms.now)) ∷ []) }
{
    above(ATOMS, atoms.others.len() + 1)
}

/// The number of the atoms of the head, else of the body, where there are too many.
fn many_atoms_of(form: &StatementForm) -> Option<usize>
    ensures { (text : List ℕ) →
        result ≡ first_above 32 (map length (limited_atoms (statement_view text form.now))) }
{
    match form {
        StatementForm::Sentence { sentence, .. } => match sentence {
            SentenceForm::Fact(_) => None,
            SentenceForm::Rule(head, body) => match many_atoms(head) {
                Some(count) => Some(count),
                None => many_atoms(body),
            },
            SentenceForm::Query(_, body) | SentenceForm::Constraint(body) => many_atoms(body),
        },
        _ => None,
    }
}

/// The token is that variable.
fn is_variable(text: &[u8], variable: &[u8], token: Token) -> bool
    ensures { result ≡ spec_is_variable variable.now (term_view text.now token) }
{
    match token.kind {
        Kind::Variable => variable == slice_of(text, token),
        _ => false,
    }
}

/// The atom has that variable.
fn has_variable(text: &[u8], variable: &[u8], atom: &AtomForm) -> bool
    ensures { result ≡ spec_has_variable variable.now (atom_view text.now atom.now) }
{
    if is_variable(text, variable, atom.terms.first) {
        return true;
    }
    for term in atom.terms.others.iter() {
        if is_variable(text, variable, *term) {
            return true;
        }
    }
    false
}

/// Whether the token is a variable that no atom has.
fn is_loose(text: &[u8], atoms: &Several<AtomForm>, token: Token) -> bool
    ensures { result ≡
        spec_is_loose (listed (atoms_view text.now atoms.now)) (term_view text.now token) }
{
    match token.kind {
        Kind::Variable => !is_held(text, atoms, slice_of(text, token)),
        _ => false,
    }
}

/// Whether an atom has that variable.
fn is_held(text: &[u8], atoms: &Several<AtomForm>, variable: &[u8]) -> bool
    ensures { result ≡
        list_any (spec_has_variable variable.now) (listed (atoms_view text.now atoms.now)) }
{
    if has_variable(text, variable, &atoms.first) {
        return true;
    }
    for atom in atoms.others.iter() {
        if has_variable(text, variable, atom) {
            return true;
        }
    }
    false
}

/// The place of the first answer that is a variable of no atom.
fn first_loose(text: &[u8], atoms: &Several<AtomForm>, answers: &[Token]) -> Option<usize>
    ensures value { result ≡
        spec_first_loose
        (listed (atoms_view text.now atoms.now))
        (map (term_view text.now) answers.now) }
    ensures within { IfSome result (λ place. place < length answers.now) }
{
    for (place, answer) in answers.iter().enumerate() {
        if is_loose(text, atoms, *answer) {
            return Some(place);
        }
    }
    None
}

/// The first limit that the statement passes, and the number that passes it.
fn passed_limit(
    text: &[u8],
    declarations: &[Declaration],
    tokens: &[Token],
    form: &StatementForm,
) -> Option<(Which, usize)>
    requires text { length text.now ≤ BYTES }
    requires tokens { length tokens.now ≤ BYTES }
    requires spelled { IsSpelledBy text.now tokens.now form.now }
    ensures value { result ≡
        spec_passed_limit (placed_view 0 0 text.now declarations.now [] form.now) }
    ensures small { IfSome result (λ passed. passed.1 ≤ 2 ^ 28) }
{
    if let Some(count) = long_name_of(text, declarations, tokens, form) {
        return Some((Which::Name, count));
    }
    if let Some(count) = wide_atom_of(form) {
        return Some((Which::Arity, count));
    }
    if let Some(count) = many_answers(form) {
        return Some((Which::Answers, count));
    }
    match many_atoms_of(form) {
        Some(count) => Some((Which::Atoms, count)),
        None => None,
    }
}

/// The refusal of a limit that is passed.
fn limit(
    text: &[u8],
    declarations: &[Declaration],
    place: Place,
    tokens: &[Token],
    form: &StatementForm,
) -> Option<ReadFault>
    requires text { length text.now ≤ BYTES }
    requires tokens { length tokens.now ≤ BYTES }
    requires spelled { IsSpelledBy text.now tokens.now form.now }
    ensures { result ≡
        spec_limit (placed_view place.file place.number text.now declarations.now [] form.now) }
{
    match passed_limit(text, declarations, tokens, form) {
        Some((which, count)) => Some(ReadFault::Limit {
            file: place.file,
            number: place.number,
            which,
            count: count as u32,
        }),
        None => None,
    }
}

/// The refusal of the first answer that no atom has.
fn unsafe_answer(text: &[u8], place: Place, form: &StatementForm) -> Option<ReadFault>
    requires { length (written_answers (statement_view text.now form.now)) ≤ BYTES }
    ensures { result ≡
        spec_unsafe_answer (placed_view place.file place.number text.now [] [] form.now) }
{
    match form {
        StatementForm::Sentence {
            sentence: SentenceForm::Query(Some(answers), body),
            ..
        } => match first_loose(text, body, answers) {
            Some(answer) => Some(ReadFault::Unsafe {
                file: place.file,
                number: place.number,
                place: answer as u32,
            }),
            None => None,
        },
        _ => None,
    }
}

/// The first refusal of the statement that these tokens spell, after these prefix lines of its file. No text is made.
/// Linear in the tokens and the prefix lines that each is looked up in; the answers are at most 16.
pub fn statement_fault(
    text: &[u8],
    declarations: &[Declaration],
    place: Place,
    tokens: &[Token],
    form: &StatementForm,
) -> Option<ReadFault>
    requires text { length text.now ≤ BYTES }
    requires tokens { length tokens.now ≤ BYTES }
    requires spelled { IsSpelledBy text.now tokens.now form.now }
    ensures { result ≡
        spec_statement_fault
        (placed_view place.file place.number text.now declarations.now tokens.now form.now) }
{
    if let Some(fault) = unknown_prefix(text, declarations, place.file, tokens) {
        return Some(fault);
    }
    if let Some(fault) = not_built(place, form) {
        return Some(fault);
    }
    if let Some(fault) = limit(text, declarations, place, tokens, form) {
        return Some(fault);
    }
    unsafe_answer(text, place, form)
}
