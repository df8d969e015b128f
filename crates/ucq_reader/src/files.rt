//! From files to the input or the first refusal.
ghost use Rattle.std.specs.Prelude.{◌≡◌, ◌≤◌, ◌<◌, ◌+◌, ◌-◌, ◌∷◌, ◌^◌, [], ℕ, List, length, IfErr, IfOk, OnOk, None, Some};
ghost use Rattle.ucq_lexer.specs.declared.TheConstants.{BYTES};
ghost use Rattle.ucq_reader.specs.declared.ReadFault.{ReadFault};
ghost use Rattle.ucq_reader.specs.Names.{declare as spec_declare};
ghost use Rattle.ucq_reader.specs.Gathered.{IsGathered};
ghost use Rattle.ucq_reader.specs.Input.{IsInput};
ghost use Rattle.ucq_reader.specs.Meaning.{Placed, statement_fault as spec_statement_fault};
ghost use Rattle.ucq_reader.specs.Outcome.{OrMemory, AreTakenUp, GrowsBy, IsAdmitted, IsJudged, IsFileTaken, IsFileFault, IsFault, IsDecidedBy, byte_count, input_value, texts};
ghost use Rattle.ucq_lexer.specs.Tokens.{Spells};
ghost use Rattle.ucq_reader.specs.inner.Placing.{IsSpelledBy, placed_view};
ghost use Rattle.ucq_reader.specs.View.{declared_view, statement_view};

use crate::faults::{Place, statement_fault};
use crate::gathered::Gathered;
use crate::input::Input;
use crate::names::Declaration;
use crate::parse::{next_statement, tokens_of};
use crate::syntax::StatementForm;
use crate::{ReadFault, Whole};
use std::alloc::{AllocError, Global};
use ucq_lexer::Token;
use ucq_terms::{FACTS, QUERIES, RULES};

/// Notes the statement, if it is a prefix line.
fn declare(declarations: &mut Vec<Declaration>, form: &StatementForm) -> Result<(), AllocError>
    ensures { OnOk
        result
        ((text : List ℕ) →
        declared_view text declarations.new.items
        ≡ spec_declare
        (declared_view text declarations.old.items)
        (statement_view text form.now)) }
{
    if let StatementForm::Prefix { name, iri, .. } = form {
        declarations.push(Declaration {
            name: *name,
            iri: *iri,
        })?;
    }
    Ok(())
}

/// Takes the statement that these tokens spell, or tells its first refusal.
fn take_statement(
    alloc: Global,
    gathered: &mut Gathered,
    text: &[u8],
    declarations: &[Declaration],
    place: Place,
    tokens: &[Token],
    form: &StatementForm,
) -> Result<(), ReadFault>
    requires text { length text.now ≤ BYTES }
    requires tokens { length tokens.now ≤ BYTES }
    requires spelled { IsSpelledBy text.now tokens.now form.now }
    requires names { length gathered.old.names + length tokens.now < 2 ^ 32 - 1 }
    requires unknowns { gathered.old.unknowns + length tokens.now < 2 ^ 32 - 1 }
    requires asked { gathered.old.asked + length tokens.now < 2 ^ 32 - 1 }
    ensures clear { OnOk
        result
        (spec_statement_fault
        (placed_view place.file place.number text.now declarations.now tokens.now form.now)
        ≡ None) }
    ensures taken { OnOk
        result
        (AreTakenUp
        (placed_view place.file place.number text.now declarations.now tokens.now form.now ∷ [])
        gathered.old gathered.new) }
    ensures grown { OnOk result (GrowsBy gathered.old gathered.new (length tokens.now)) }
    ensures fault { IfErr result (λ f.
        OrMemory
        (λ (g : ReadFault).
        spec_statement_fault
        (placed_view place.file place.number text.now declarations.now tokens.now
        form.now)
        ≡ Some g)
        f) }
{
    if let Some(fault) = statement_fault(text, declarations, place, tokens, form) {
        return Err(fault);
    }
    gathered.add(alloc, text, declarations, form)
}

/// The same, and notes the statement if it is a prefix line.
fn admit(
    alloc: Global,
    gathered: &mut Gathered,
    text: &[u8],
    declarations: &mut Vec<Declaration>,
    place: Place,
    tokens: &[Token],
    form: &StatementForm,
) -> Result<(), ReadFault>
    requires text { length text.now ≤ BYTES }
    requires tokens { length tokens.now ≤ BYTES }
    requires spelled { IsSpelledBy text.now tokens.now form.now }
    requires names { length gathered.old.names + length tokens.now < 2 ^ 32 - 1 }
    requires unknowns { gathered.old.unknowns + length tokens.now < 2 ^ 32 - 1 }
    requires asked { gathered.old.asked + length tokens.now < 2 ^ 32 - 1 }
    ensures admitted { OnOk
        result
        (IsAdmitted text.now
        (placed_view place.file place.number text.now declarations.old.items tokens.now form.now)
        (length tokens.now) declarations.old.items declarations.new.items gathered.old
        gathered.new) }
    ensures fault { IfErr result (λ f.
        OrMemory
        (λ (g : ReadFault).
        spec_statement_fault
        (placed_view place.file place.number text.now declarations.old.items
        tokens.now form.now)
        ≡ Some g)
        f) }
{
    take_statement(
        alloc,
        gathered,
        text,
        declarations.as_slice(),
        place,
        tokens,
        form,
    )?;
    declare(declarations, form)?;
    Ok(())
}

/// The refusal of a file after its next statement, which is taken where no statement before it was refused.
fn judge(
    alloc: Global,
    gathered: &mut Gathered,
    text: &[u8],
    declarations: &mut Vec<Declaration>,
    place: Place,
    tokens: &[Token],
    form: &StatementForm,
    refusal: Option<ReadFault>,
) -> Option<ReadFault>
    requires text { length text.now ≤ BYTES }
    requires tokens { length tokens.now ≤ BYTES }
    requires spelled { IsSpelledBy text.now tokens.now form.now }
    requires names { refusal ≡ None → length gathered.old.names + length tokens.now < 2 ^ 32 - 1 }
    requires unknowns { refusal ≡ None → gathered.old.unknowns + length tokens.now < 2 ^ 32 - 1 }
    requires asked { refusal ≡ None → gathered.old.asked + length tokens.now < 2 ^ 32 - 1 }
    ensures { IsJudged
        refusal
        (placed_view place.file place.number text.now declarations.old.items tokens.now
        form.now)
        (IsAdmitted
        text.now
        (placed_view place.file place.number text.now declarations.old.items tokens.now
        form.now)
        (length tokens.now)
        declarations.old.items
        declarations.new.items
        gathered.old
        gathered.new)
        result }
{
    match refusal {
        Some(fault) => Some(fault),
        None => match admit(alloc, gathered, text, declarations, place, tokens, form) {
            Ok(()) => None,
            Err(fault) => Some(fault),
        },
    }
}

/// Takes the statements that these tokens of a file spell, each as it is read, up to the first that is refused. Those
/// after it are read, too: that a file is no list of statements comes before any refusal of a statement.
fn take_statements(
    alloc: Global,
    gathered: &mut Gathered,
    file: u32,
    text: &[u8],
    tokens: &[Token],
) -> Result<(), ReadFault>
    requires text { length text.now ≤ BYTES }
    requires spells { Spells text.now tokens.now }
    requires names { length gathered.old.names + length text.now < 2 ^ 32 - 1 }
    requires unknowns { gathered.old.unknowns + length text.now < 2 ^ 32 - 1 }
    requires asked { gathered.old.asked + length text.now < 2 ^ 32 - 1 }
    ensures taken { OnOk result (IsFileTaken file text.now gathered.old gathered.new) }
    ensures fault { IfErr result (λ f. OrMemory (IsFileFault file text.now) f) }
{
    let mut declarations = Vec::new(alloc);
    let mut refusal = None;
    let mut place = 0;
    let mut number = 0;
    while place < tokens.len() {
        let next = next_statement(alloc, file, number, text, tokens, place)?;
        let end = place + next.count;
        refusal = judge(
            alloc,
            gathered,
            text,
            &mut declarations,
            Place { file, number },
            &tokens[place..end],
            &next.form,
            refusal,
        );
        drop(next);
        place = end;
        number += 1;
    }
    match refusal {
        Some(fault) => Err(fault),
        None => Ok(()),
    }
}

/// Takes the statements of a file, or tells its first refusal.
fn take_file(
    alloc: Global,
    gathered: &mut Gathered,
    file: u32,
    text: &[u8],
) -> Result<(), ReadFault>
    requires text { length text.now ≤ BYTES }
    requires names { length gathered.old.names + length text.now < 2 ^ 32 - 1 }
    requires unknowns { gathered.old.unknowns + length text.now < 2 ^ 32 - 1 }
    requires asked { gathered.old.asked + length text.now < 2 ^ 32 - 1 }
    ensures taken { OnOk result (IsFileTaken file text.now gathered.old gathered.new) }
    ensures fault { IfErr result (λ f. OrMemory (IsFileFault file text.now) f) }
{
    let tokens = tokens_of(alloc, file, text)?;
    take_statements(alloc, gathered, file, text, tokens.as_slice())
}

/// Why the statements stand for no input, once none of them is refused: there are too many rules, facts or queries, or no
/// query.
fn whole_fault(gathered: &Gathered) -> Option<ReadFault>
    requires rules { length gathered.now.rules < 2 ^ 32 }
    requires facts { length gathered.now.facts < 2 ^ 32 }
    ensures whole { (all : List Placed) →
        IsGathered all gathered.now →
        IsDecidedBy all gathered.now result }
    ensures few_rules { result ≡ None → length gathered.now.rules ≤ RULES }
    ensures few_facts { result ≡ None → length gathered.now.facts ≤ FACTS }
    ensures some_query { result ≡ None → 0 < gathered.now.asked }
    ensures few_queries { result ≡ None → gathered.now.asked ≤ QUERIES }
{
    let rules = gathered.rule_count();
    if rules > RULES as usize {
        return Some(ReadFault::TooMany {
            which: Whole::Rules,
            count: rules as u32,
        });
    }
    let facts = gathered.fact_count();
    if facts > FACTS as usize {
        return Some(ReadFault::TooMany {
            which: Whole::Facts,
            count: facts as u32,
        });
    }
    let queries = gathered.query_count();
    if queries > QUERIES {
        return Some(ReadFault::TooMany {
            which: Whole::Queries,
            count: queries,
        });
    }
    if queries == 0 {
        return Some(ReadFault::NoQuery);
    }
    None
}

/// Reads the files in turn as the input that they stand for.
///
/// The refusal is the first of the first file that has one: that it is no list of statements, or that of its first
/// statement that is refused. Only then the rules, the facts and the queries of all files are counted. `Memory` may come
/// at any place. Linear in the bytes, but that each name with a prefix is looked up among the prefix lines before it.
pub fn read_files(alloc: Global, files: &[Vec<u8>]) -> Result<Input, ReadFault>
    requires some { 0 < length files.now }
    requires few { length files.now ≤ 64 }
    requires small { byte_count (texts files.now) ≤ BYTES }
    ensures input { IfOk result (λ input. IsInput (texts files.now) (input_value input)) }
    ensures rules { IfOk result (λ input. length (input_value input).rules ≤ RULES) }
    ensures facts { IfOk result (λ input. length (input_value input).facts ≤ FACTS) }
    ensures queries { IfOk result (λ input.
        (0 < length (input_value input).queries) ×
        (length (input_value input).queries ≤ QUERIES)) }
    ensures fault { IfErr result (λ fault. IsFault (texts files.now) fault) }
{
    let mut gathered = Gathered::new(alloc)?;
    for (file, text) in files.iter().enumerate() {
        take_file(alloc, &mut gathered, file as u32, text.as_slice())?;
    }
    match whole_fault(&gathered) {
        Some(fault) => Err(fault),
        None => Ok(gathered.into_input()),
    }
}
