//! The texts of queries.
ghost use Rattle.std.specs.Prelude.{◌≡◌, ◌++◌, codes, IfOk, OnOk};
ghost use Rattle.std.specs.List.{flat_map};
ghost use Rattle.ucq_eval.specs.Tuples.{joined};
ghost use Rattle.ucq_print.specs.Texts.{answers_text, atom_text, numbered_text, query_line as query_line_of, query_text, term_text, terms_text};

use itoa::Buffer;
use std::alloc::Global;
use ucq_terms::{Atom, Names, NoMemory, Query, Term};

fn push_term(text: &mut Vec<u8>, names: &Names, term: Term) -> Result<(), NoMemory>
    ensures { OnOk result (text.new.items ≡ text.old.items ++ term_text names.now term) }
{
    match term {
        Term::Constant(number) => text.extend_from_slice(names.text_or_empty(number))?,
        Term::Variable(number) => {
            text.push(b'X')?;
            text.extend_from_slice(Buffer::new().format(number).as_bytes())?;
        }
    }
    Ok(())
}

/// A comma and a term, for each.
fn push_more_terms(text: &mut Vec<u8>, names: &Names, terms: &[Term]) -> Result<(), NoMemory>
    ensures { OnOk
        result
        (text.new.items ≡
        text.old.items ++ flat_map (λ t. codes "," ++ term_text names.now t) terms.now) }
{
    for term in terms {
        text.push(b',')?;
        push_term(text, names, *term)?;
    }
    Ok(())
}

/// The terms, with a comma between each two.
fn push_joined_terms(text: &mut Vec<u8>, names: &Names, terms: &[Term]) -> Result<(), NoMemory>
    ensures { OnOk
        result
        (text.new.items ≡ text.old.items ++ joined (codes ",") (term_text names.now) terms.now) }
{
    match terms {
        [] => Ok(()),
        [first, rest @ ..] => {
            push_term(text, names, *first)?;
            push_more_terms(text, names, rest)
        }
    }
}

/// Terms between parentheses.
fn push_terms(text: &mut Vec<u8>, names: &Names, terms: &[Term]) -> Result<(), NoMemory>
    ensures { OnOk result (text.new.items ≡ text.old.items ++ terms_text names.now terms.now) }
{
    text.push(b'(')?;
    push_joined_terms(text, names, terms)?;
    text.push(b')')?;
    Ok(())
}

fn push_atom(text: &mut Vec<u8>, names: &Names, atom: &Atom) -> Result<(), NoMemory>
    ensures { OnOk result (text.new.items ≡ text.old.items ++ atom_text names.now atom.now) }
{
    text.extend_from_slice(names.text_or_empty(atom.name()))?;
    push_terms(text, names, atom.terms())
}

/// A comma, a space and an atom, for each.
fn push_more_atoms(text: &mut Vec<u8>, names: &Names, atoms: &[Atom]) -> Result<(), NoMemory>
    ensures { OnOk
        result
        (text.new.items ≡
        text.old.items ++ flat_map (λ a. codes ", " ++ atom_text names.now a) atoms.now) }
{
    for atom in atoms {
        text.extend_from_slice(b", ")?;
        push_atom(text, names, atom)?;
    }
    Ok(())
}

/// The atoms, with a comma and a space between each two.
fn push_joined_atoms(text: &mut Vec<u8>, names: &Names, atoms: &[Atom]) -> Result<(), NoMemory>
    ensures { OnOk
        result
        (text.new.items ≡ text.old.items ++ joined (codes ", ") (atom_text names.now) atoms.now) }
{
    match atoms {
        [] => Ok(()),
        [first, rest @ ..] => {
            push_atom(text, names, first)?;
            push_more_atoms(text, names, rest)
        }
    }
}

/// The answer list between parentheses, or nothing where it is empty.
fn push_answers(text: &mut Vec<u8>, names: &Names, answers: &[Term]) -> Result<(), NoMemory>
    ensures { OnOk result (text.new.items ≡ text.old.items ++ answers_text names.now answers.now) }
{
    if answers.is_empty() {
        return Ok(());
    }
    push_terms(text, names, answers)
}

fn push_numbered(text: &mut Vec<u8>, names: &Names, query: &Query) -> Result<(), NoMemory>
    ensures { OnOk result (text.new.items ≡ text.old.items ++ numbered_text names.now query.now) }
{
    text.push(b'?')?;
    push_answers(text, names, query.answers())?;
    text.extend_from_slice(b" :- ")?;
    push_joined_atoms(text, names, query.atoms())?;
    text.push(b'.')?;
    Ok(())
}

/// Adds the query's text, in which the variables are numbered by first occurrence.
fn push_query(text: &mut Vec<u8>, names: &Names, query: &Query) -> Result<(), NoMemory>
    ensures { OnOk result (text.new.items ≡ text.old.items ++ query_text names.now query.now) }
{
    let numbered = query.rename()?;
    push_numbered(text, names, &numbered)
}

/// The text of a query, without a line feed. The variables are `X0`, `X1` and so on, by first occurrence in the answer
/// list and then in the atoms as they stand. A name or constant that the names don't hold is printed as nothing. The only
/// error is want of memory.
pub fn query_text(alloc: Global, names: &Names, query: &Query) -> Result<Vec<u8>, NoMemory>
    ensures { IfOk result (λ text. text.items ≡ query_text names.now query.now) }
{
    let mut text = Vec::new(alloc);
    push_query(&mut text, names, query)?;
    Ok(text)
}

/// These bytes, the query's text and a line feed.
pub(crate) fn query_line_after(
    alloc: Global,
    before: &[u8],
    names: &Names,
    query: &Query,
) -> Result<Vec<u8>, NoMemory>
    ensures { IfOk result (λ line. line.items ≡ before.now ++ query_line_of names.now query.now) }
{
    let mut line = Vec::from_slice(alloc, before)?;
    push_query(&mut line, names, query)?;
    line.push(b'\n')?;
    Ok(line)
}
