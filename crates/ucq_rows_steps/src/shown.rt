//! Texts of what is compared.
use crate::asserts::sure;
use std::alloc::{AllocError, Global};
use std::process::Abort;
use ucq_terms::{Atom, Piece, Query, Rule, Term};

fn letter(term: Term) -> u8 {
    match term {
        Term::Variable(variable) => b'A' + (variable % 26) as u8,
        Term::Constant(constant) => (constant % 256) as u8,
    }
}

fn push_terms(text: &mut Vec<u8>, terms: &[Term]) -> Result<(), AllocError> {
    for term in terms {
        text.push(letter(*term))?;
    }
    Ok(())
}

fn push_atom(text: &mut Vec<u8>, atom: &Atom) -> Result<(), AllocError> {
    text.push(b' ')?;
    text.push((atom.name() % 256) as u8)?;
    push_terms(text, atom.terms())
}

fn push_atoms(text: &mut Vec<u8>, atoms: &[Atom]) -> Result<(), AllocError> {
    for atom in atoms {
        push_atom(text, atom)?;
    }
    Ok(())
}

fn push_query(text: &mut Vec<u8>, query: &Query) -> Result<(), AllocError> {
    text.push(b'?')?;
    push_terms(text, query.answers())?;
    push_atoms(text, query.atoms())
}

/// The query as its text is spelled, with its variables from `A` on.
pub(crate) fn shown(rt: &impl Abort, alloc: Global, query: &Query) -> Vec<u8> {
    let mut text = Vec::new(alloc);
    sure(rt, push_query(&mut text, query));
    text
}

fn push_rule(text: &mut Vec<u8>, rule: &Rule) -> Result<(), AllocError> {
    push_atoms(text, rule.heads())?;
    text.extend_from_slice(b" <-")?;
    push_atoms(text, rule.body())
}

/// The rule as its text is spelled, with its variables from `A` on and a blank before it.
pub(crate) fn shown_rule(rt: &impl Abort, alloc: Global, rule: &Rule) -> Vec<u8> {
    let mut text = Vec::new(alloc);
    sure(rt, push_rule(&mut text, rule));
    text
}

/// The piece as a text like `0-0,1-0`: the place of each atom, and that of its head.
fn shown_piece(alloc: Global, piece: &Piece) -> Result<String, AllocError> {
    let mut text = String::new(alloc);
    for (place, head) in piece.pairs.iter() {
        let comma = if text.is_empty() { "" } else { "," };
        text.push_str(&format!(in alloc; "{comma}{place}-{head}")?)?;
    }
    Ok(text)
}

fn all_shown(alloc: Global, pieces: &[Piece]) -> Result<Vec<String>, AllocError> {
    let mut texts = Vec::new(alloc);
    for piece in pieces {
        texts.push(shown_piece(alloc, piece)?)?;
    }
    texts.sort()?;
    Ok(texts)
}

/// The texts of all pieces in order, a blank after each.
pub(crate) fn shown_pieces(alloc: Global, pieces: &[Piece]) -> Result<String, AllocError> {
    let mut line = String::new(alloc);
    for text in all_shown(alloc, pieces)? {
        line.push_str(text.as_str())?;
        line.push(' ')?;
    }
    Ok(line)
}
