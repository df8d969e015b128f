//! The tokens of a file.
//!
//! White space is space, tab, carriage return and line feed; a comment runs from `%` to the end of its line. Between them
//! the longest token of each place is taken.
#![tactic(auto)]

ghost use Rattle.std.specs.Prelude.{◌≡◌, ◌≤◌, ◌^◌, ℕ, List, IfOk, IfErr, IfSome, IfNone, length, drop};
ghost use Rattle.ucq_lexer.specs.Fault.{IsFault};
ghost use Rattle.ucq_lexer.specs.Spelling.{Begins};
ghost use Rattle.ucq_lexer.specs.Tokens.{IsTokenAt, Spells};

mod bytes;
mod fault;
mod front;
mod gaps;
pub mod laws;
mod measure;

pub use fault::LexFault;
use front::front;
use gaps::gap_end;
use std::alloc::Global;

/// The kinds of tokens. `specs/Spelling` says how each is spelled.
#[derive(Clone, Copy, Debug, PartialEq, Eq)]
pub enum Kind {
    /// A word that begins with a capital.
    Variable,
    /// A word that begins with a small letter.
    Identifier,
    /// `<`, bytes, `>`.
    Iri,
    /// A word or nothing, `:`, a local part.
    Prefixed,
    /// A word or nothing, `:`.
    Prefix,
    /// Digits, with a sign or none.
    Integer,
    /// Between quotes, with a tail or none.
    Text,
    /// Between brackets.
    Label,
    /// `@` and letters.
    Directive,
    /// `(`
    Open,
    /// `)`
    Close,
    /// `,`
    Comma,
    /// `.`
    Dot,
    /// `?`
    Question,
    /// `!`
    Bang,
    /// `:-`
    If,
}

/// The most bytes of a text.
pub const BYTES: usize = 67_108_864;

/// A token of a file: its kind, the place of its first byte, and the place after its last byte.
#[derive(Clone, Copy, Debug, PartialEq, Eq)]
pub struct Token {
    pub kind: Kind,
    pub start: u32,
    pub end: u32,
}

/// The longest token at the place.
fn token_at(text: &[u8], place: usize) -> Option<Token>
    requires length { length text.now ≤ BYTES }
    requires inside { place ≤ length text.now }
    ensures found { IfSome result (λ token. IsTokenAt text.now place token) }
    ensures none { IfNone
        result
        ((kind : Kind) (count : ℕ) → Begins (drop place text.now) kind count → ⊥) }
{
    match front(&text[place..]) {
        Some((kind, size)) => {
            let end = place + size;
            Some(Token {
                kind,
                start: place as u32,
                end: end as u32,
            })
        }
        None => None,
    }
}

/// The tokens of a text of at most `BYTES` bytes, in order, each the longest of its place; or the first byte at which no
/// token, white space or comment begins. Linear in the text.
pub fn tokens(alloc: Global, text: &[u8]) -> Result<Vec<Token>, LexFault>
    requires { length text.now ≤ BYTES }
    ensures found { IfOk result (λ tokens. Spells text.now tokens.items) }
    ensures fault { IfErr result (λ fault. IsFault text.now fault) }
{
    let mut tokens = Vec::new(alloc);
    let mut place = gap_end(text, 0);
    while place < text.len() {
        match token_at(text, place) {
            Some(token) => {
                tokens.push(token)?;
                place = gap_end(text, token.end as usize);
            }
            None => return Err(LexFault::BadByte { at: place as u32 }),
        }
    }
    Ok(tokens)
}
