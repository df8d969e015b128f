//! The texts of tables, and of the facts in them.
ghost use Rattle.std.specs.Prelude.{◌≡◌, ◌<◌, ◌≤◌, ◌^◌, ◌++◌, ◌↔◌, All, IfOk, IsTrue, MatchOption, OnOk, length, map};
ghost use Rattle.ucq_sql.specs.Selects.{table_of as table_of_atom, with_tables};
ghost use Rattle.ucq_sql.specs.Tables.{AreOfConstants, IsConstant, IsFirstUnknown, IsOfConstants, IsOfTable, IsRun};
ghost use Rattle.ucq_sql.specs.Text.{bare_name, caseless_name, column_name, columns_text, comma_before, facts_line as facts_line_of, row_text, rows_text, table_line as table_line_of, table_name as table_name_of, term_text, value_text, values_text};

use crate::Table;
use crate::quotes::{push_doubled, push_number, push_quoted};
use indexmap::IndexSet;
use itoa::Buffer;
use std::alloc::Global;
use ucq_terms::{Atom, Names, NoMemory, Term};

/// Adds the table's name between quotes.
pub(crate) fn push_table(text: &mut Vec<u8>, names: &Names, table: Table) -> Result<(), NoMemory>
    ensures { OnOk result (text.new.items ≡ text.old.items ++ table_name_of names.now table) }
{
    text.push(b'"')?;
    push_doubled(text, b'"', names.text_or_empty(table.name))?;
    text.push(b'/')?;
    push_number(text, u64::from(table.arity))?;
    text.push(b'"')?;
    Ok(())
}

/// Adds the constant's text between quotes.
pub(crate) fn push_value(text: &mut Vec<u8>, names: &Names, constant: u32) -> Result<(), NoMemory>
    ensures { OnOk result (text.new.items ≡ text.old.items ++ value_text names.now constant) }
{
    push_quoted(text, b'\'', names.text_or_empty(constant))
}

/// Adds a comma and a space, but for the first place.
pub(crate) fn push_comma(text: &mut Vec<u8>, place: usize) -> Result<(), NoMemory>
    ensures { OnOk result (text.new.items ≡ text.old.items ++ comma_before place) }
{
    if place > 0 {
        text.extend_from_slice(b", ")?;
    }
    Ok(())
}

/// Adds the name of the column at the place.
pub(crate) fn push_column_name(text: &mut Vec<u8>, place: u32) -> Result<(), NoMemory>
    ensures { OnOk result (text.new.items ≡ text.old.items ++ column_name place) }
{
    text.push(b'c')?;
    push_number(text, u64::from(place) + 1)
}

/// Adds so many columns with their types.
fn push_columns(text: &mut Vec<u8>, arity: u32) -> Result<(), NoMemory>
    ensures { OnOk result (text.new.items ≡ text.old.items ++ columns_text arity) }
{
    for place in 0..arity {
        push_comma(text, place as usize)?;
        push_column_name(text, place)?;
        text.extend_from_slice(b" VARCHAR")?;
    }
    Ok(())
}

/// Adds the value of the term, and nothing for an unknown one.
fn push_term(text: &mut Vec<u8>, names: &Names, term: Term) -> Result<(), NoMemory>
    ensures { OnOk result (text.new.items ≡ text.old.items ++ term_text names.now term) }
{
    match term {
        Term::Constant(constant) => push_value(text, names, constant),
        Term::Variable(_) => Ok(()),
    }
}

/// Adds the values of the terms, with commas.
fn push_values(text: &mut Vec<u8>, names: &Names, terms: &[Term]) -> Result<(), NoMemory>
    ensures { OnOk result (text.new.items ≡ text.old.items ++ values_text names.now terms.now) }
{
    for (place, term) in terms.iter().enumerate() {
        push_comma(text, place)?;
        push_term(text, names, *term)?;
    }
    Ok(())
}

/// The name of a table as it stands in statements, between double quotes: the predicate's text, a slash and the arity. Two
/// tables of names that are held have two names (`laws::names_are_told`). A name that isn't held is printed as nothing. The
/// only error is want of memory.
pub fn table_name(alloc: Global, names: &Names, table: Table) -> Result<Vec<u8>, NoMemory>
    ensures { IfOk result (λ text. text.items ≡ table_name_of names.now table) }
{
    let mut text = Vec::new(alloc);
    push_table(&mut text, names, table)?;
    Ok(text)
}

/// How many bytes the table's name has, without quotes. PostgreSQL cuts a name behind 63 bytes.
pub fn name_len(names: &Names, table: Table) -> usize
    ensures { result ≡ length (bare_name names.now table) }
{
    names.text_or_empty(table.name).len() + 1 + Buffer::new().format(table.arity).len()
}

/// The line that makes the table where there is none, of columns `c1`, `c2` and so on, each a `VARCHAR`. The only error is
/// want of memory.
pub fn table_line(alloc: Global, names: &Names, table: Table) -> Result<Vec<u8>, NoMemory>
    requires { 0 < table.arity }
    ensures { IfOk result (λ line. line.items ≡ table_line_of names.now table) }
{
    let mut line = Vec::from_slice(alloc, b"CREATE TABLE IF NOT EXISTS ")?;
    push_table(&mut line, names, table)?;
    line.extend_from_slice(b" (")?;
    push_columns(&mut line, table.arity)?;
    line.extend_from_slice(b");\n")?;
    Ok(line)
}

/// Whether the fact has no unknown value, so that its row can stand in a table.
pub fn is_of_constants(fact: &Atom) -> bool
    ensures { IsTrue result ↔ IsOfConstants fact.now }
{
    fact.terms().iter().all(|term| is_constant(*term))
}

/// The place of the first fact with an unknown value, if there is one.
pub fn first_unknown(facts: &[Atom]) -> Option<u32>
    requires { length facts.now < 2 ^ 32 }
    ensures { MatchOption result (AreOfConstants facts.now) (IsFirstUnknown facts.now) }
{
    for (place, fact) in facts.iter().enumerate() {
        if !is_of_constants(fact) {
            return Some(place as u32);
        }
    }
    None
}

fn is_constant(term: Term) -> bool
    ensures { IsTrue result ↔ IsConstant term }
{
    match term {
        Term::Constant(_) => true,
        Term::Variable(_) => false,
    }
}

/// Adds the fact's row between parentheses.
fn push_row(text: &mut Vec<u8>, names: &Names, fact: &Atom) -> Result<(), NoMemory>
    ensures { OnOk result (text.new.items ≡ text.old.items ++ row_text names.now fact.now) }
{
    text.push(b'(')?;
    push_values(text, names, fact.terms())?;
    text.push(b')')?;
    Ok(())
}

/// Adds the facts' rows, with commas.
fn push_rows(text: &mut Vec<u8>, names: &Names, facts: &[Atom]) -> Result<(), NoMemory>
    ensures { OnOk result (text.new.items ≡ text.old.items ++ rows_text names.now facts.now) }
{
    for (place, fact) in facts.iter().enumerate() {
        push_comma(text, place)?;
        push_row(text, names, fact)?;
    }
    Ok(())
}

/// The line that puts facts of constants into their table, of which there is at least one. The only error is want of memory.
pub fn facts_line(
    alloc: Global,
    names: &Names,
    table: Table,
    facts: &[Atom],
) -> Result<Vec<u8>, NoMemory>
    requires some { 0 < length facts.now }
    requires constants { AreOfConstants facts.now }
    requires one_table { All (IsOfTable table) facts.now }
    ensures { IfOk result (λ line. line.items ≡ facts_line_of names.now table facts.now) }
{
    let mut line = Vec::from_slice(alloc, b"INSERT INTO ")?;
    push_table(&mut line, names, table)?;
    line.extend_from_slice(b" VALUES ")?;
    push_rows(&mut line, names, facts)?;
    line.extend_from_slice(b";\n")?;
    Ok(line)
}

/// How many of the first facts are of the table, up to `most`: as many as one line is to put there.
pub fn run_of(table: Table, facts: &[Atom], most: u32) -> u32
    ensures { IsRun table facts.now most result }
{
    let mut count = 0;
    for fact in facts {
        if count == most || !is_of_table(table, fact) {
            return count;
        }
        count += 1;
    }
    count
}

fn is_of_table(table: Table, fact: &Atom) -> bool
    ensures { IsTrue result ↔ IsOfTable table fact.now }
{
    fact.name() == table.name && fact.terms().len() as u32 == table.arity
}

/// Whether the two tables have one name where the case of the letters `A` to `Z` means nothing, as in SQLite, DuckDB and Trino.
/// Two tables that differ may be put into one there.
pub fn have_one_caseless_name(names: &Names, one: Table, other: Table) -> bool
    ensures { IsTrue result ↔ (caseless_name names.now one ≡ caseless_name names.now other) }
{
    one.arity == other.arity
        && names
            .text_or_empty(one.name)
            .eq_ignore_ascii_case(names.text_or_empty(other.name))
}

/// The table of the atom's predicate, which its facts stand in.
pub fn table_of(atom: &Atom) -> Table
    ensures table { result ≡ table_of_atom atom.now }
    ensures few { result.arity ≤ 16 }
{
    Table {
        name: atom.name(),
        arity: atom.terms().len() as u32,
    }
}

/// Adds the tables of the atoms, each once, in order of first occurrence. After want of memory some of them are added.
pub fn note_tables(tables: &mut IndexSet<Table>, atoms: &[Atom]) -> Result<(), NoMemory>
    ensures { OnOk
        result
        (tables.new.keys ≡ with_tables tables.old.keys (map table_of_atom atoms.now)) }
{
    for atom in atoms {
        tables.insert(table_of(atom))?;
    }
    Ok(())
}
