//! The statements of one file.
ghost use Rattle.std.specs.Prelude.{◌≤◌, ◌<◌, ◌^◌, length, drop, IfOk, IfErr};
ghost use Rattle.ucq_lexer.specs.declared.TheConstants.{BYTES};
ghost use Rattle.ucq_lexer.specs.Tokens.{Spells};
ghost use Rattle.ucq_reader.specs.declared.stages.Ending.TheVariants.{Complete};
ghost use Rattle.ucq_reader.specs.inner.Ending.{IsEnding};
ghost use Rattle.ucq_reader.specs.Outcome.{OrMemory};
ghost use Rattle.ucq_reader.specs.inner.Parse.{IsMalformed, IsNoStatement};

use crate::ReadFault;
use crate::stages::{Ending, statement};
use crate::syntax::StatementForm;
use std::alloc::Global;
use ucq_lexer::{LexFault, Token, tokens};

/// A statement, and how many tokens it has.
#[derive(Drop)]
pub struct CountedStatement {
    pub form: StatementForm,
    pub count: usize,
}

/// The tokens of a file, or the byte at which none begins.
pub fn tokens_of(alloc: Global, file: u32, text: &[u8]) -> Result<Vec<Token>, ReadFault>
    requires { length text.now ≤ BYTES }
    ensures found { IfOk result (λ tokens. Spells text.now tokens.items) }
    ensures fault { IfErr result (λ fault. IsMalformed file text.now fault) }
{
    match tokens(alloc, text) {
        Ok(tokens) => Ok(tokens),
        Err(LexFault::BadByte { at }) => Err(ReadFault::BadByte { file, at }),
        Err(LexFault::Memory) => Err(ReadFault::Memory),
    }
}

/// The statement of this number in its file, which begins with the token at the place; or why there is none.
pub fn next_statement(
    alloc: Global,
    file: u32,
    number: u32,
    text: &[u8],
    tokens: &[Token],
    place: usize,
) -> Result<CountedStatement, ReadFault>
    requires spells { Spells text.now tokens.now }
    requires inside { place < length tokens.now }
    ensures found { IfOk result (λ s.
        IsEnding text.now (drop place tokens.now) (Complete s.form s.count)) }
    ensures fault { IfErr result (λ fault.
        OrMemory (IsNoStatement file number text.now tokens.now place) fault) }
{
    match statement(alloc, text, &tokens[place..])? {
        Ending::Complete(form, count) => Ok(CountedStatement { form, count }),
        Ending::Bad(count) => Err(ReadFault::BadStatement {
            file,
            number,
            at: tokens[place + count].start,
        }),
        Ending::Unfinished => Err(ReadFault::OpenEnd {
            file,
            at: tokens[place].start,
        }),
    }
}
