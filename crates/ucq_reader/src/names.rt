//! Prefixes, and the names that they expand.
ghost use Rattle.std.specs.Prelude.{◌≡◌, ◌≤◌, All, length, map, min};
ghost use Rattle.std.specs.List.{position};
ghost use Rattle.ucq_lexer.specs.declared.Token.{Token};
ghost use Rattle.ucq_reader.specs.Names.{colon_end, declared, is_undeclared as spec_is_undeclared, local_part, prefix_part};
ghost use Rattle.ucq_reader.specs.View.{bytes_of, declared_view, found_view, word_at};

use ucq_lexer::{Kind, Token};

/// A prefix line of a file.
#[derive(Clone, Copy)]
pub struct Declaration {
    pub name: Token,
    pub iri: Token,
}

/// The bytes of the token. Of a token that passes the end of the text, those that the text has.
pub fn slice_of(text: &[u8], token: Token) -> &[u8]
    ensures { result.now ≡ bytes_of text.now token }
{
    let end = text.len().min(token.end as usize);
    let start = end.min(token.start as usize);
    &text[start..end]
}

/// How many bytes there are up to and with the first `:`, or all of them.
fn colon_end(bytes: &[u8]) -> usize
    ensures { result ≡ min (colon_end bytes.now) (length bytes.now) }
{
    for (i, b) in bytes.iter().enumerate() {
        if *b == b':' {
            return i + 1;
        }
    }
    bytes.len()
}

/// The prefix with its `:`, and the local part.
pub fn split_prefixed(bytes: &[u8]) -> (&[u8], &[u8])
    ensures prefix { result.0.now ≡ prefix_part bytes.now }
    ensures local { result.1.now ≡ local_part bytes.now }
{
    bytes.split_at(colon_end(bytes))
}

/// The Iri that the prefix was last declared with. The lines are searched from the last one back, so names cost as many
/// steps as there are prefix lines before them.
pub fn declared(text: &[u8], declarations: &[Declaration], prefix: &[u8]) -> Option<Token>
    ensures { found_view text.now result
        ≡ declared (declared_view text.now declarations.now) prefix.now }
{
    let mut earlier = declarations;
    while let Some((last, before)) = earlier.split_last() {
        if prefix == slice_of(text, last.name) {
            return Some(last.iri);
        }
        earlier = before;
    }
    None
}

/// Whether the token is a Prefixed token whose prefix isn't declared.
pub fn is_undeclared(text: &[u8], declarations: &[Declaration], token: Token) -> bool
    ensures { result ≡
        spec_is_undeclared (declared_view text.now declarations.now) (word_at text.now token) }
{
    match token.kind {
        Kind::Prefixed => {
            let (prefix, _) = split_prefixed(slice_of(text, token));
            declared(text, declarations, prefix).is_none()
        }
        _ => false,
    }
}
