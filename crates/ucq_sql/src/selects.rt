//! The texts of the select of a query, and of the statement of a union.
ghost use Rattle.std.specs.Prelude.{◌≡◌, ◌<◌, ◌≤◌, ◌+◌, ◌*◌, ◌^◌, ◌++◌, length, map, All, IfOk, OnOk};
ghost use Rattle.ucq_sql.specs.Laws.{AreSmall, PrintsHeld};
ghost use Rattle.ucq_sql.specs.Selects.{conditions_of, outputs_of, output_of, row_conditions, select_of, statement_of, table_of as table_of_atom};
ghost use Rattle.ucq_sql.specs.Text.{alias_text, column_text, conditions_text, from_text, led_text, listed_text, member_text as member_text_of, output_text, outputs_text, select_text as select_text_of, statement_text as statement_text_of, union_before, word_before};

use crate::columns::{condition, output};
use crate::quotes::push_number;
use crate::tables::{push_column_name, push_comma, push_table, push_value, table_of};
use crate::{Column, Condition, Output};
use std::alloc::Global;
use ucq_terms::{Atom, Names, NoMemory, Query, Term, Union};

/// What ends a statement: a semicolon and a line feed.
pub const END: &[u8] = b";\n";

fn push_alias(text: &mut Vec<u8>, alias: u32) -> Result<(), NoMemory>
    ensures { OnOk result (text.new.items ≡ text.old.items ++ alias_text alias) }
{
    text.push(b't')?;
    push_number(text, u64::from(alias))
}

fn push_column(text: &mut Vec<u8>, column: Column) -> Result<(), NoMemory>
    ensures { OnOk result (text.new.items ≡ text.old.items ++ column_text column) }
{
    push_alias(text, column.alias)?;
    text.push(b'.')?;
    push_column_name(text, column.column)
}

fn push_output(text: &mut Vec<u8>, names: &Names, output: Output) -> Result<(), NoMemory>
    ensures { OnOk result (text.new.items ≡ text.old.items ++ output_text names.now output) }
{
    match output {
        Output::Read(column) => push_column(text, column),
        Output::Value(constant) => push_value(text, names, constant),
        Output::One => Ok(text.push(b'1')?),
    }
}

/// Adds the output at the place, named as a column.
fn push_named_output(
    text: &mut Vec<u8>,
    names: &Names,
    place: u32,
    output: Output,
) -> Result<(), NoMemory>
    ensures { OnOk
        result
        (text.new.items ≡ text.old.items ++ listed_text names.now place output) }
{
    push_comma(text, place as usize)?;
    push_output(text, names, output)?;
    text.extend_from_slice(b" AS ")?;
    push_column_name(text, place)
}

/// Adds what is listed for the answer terms.
fn push_answers(
    text: &mut Vec<u8>,
    names: &Names,
    atoms: &[Atom],
    answers: &[Term],
) -> Result<(), NoMemory>
    requires few_atoms { length atoms.now < 2 ^ 32 }
    requires few_answers { length answers.now < 2 ^ 32 }
    ensures { OnOk
        result
        (text.new.items ≡
        text.old.items ++ outputs_text names.now (map (output_of atoms.now) answers.now)) }
{
    for (place, term) in answers.iter().enumerate() {
        push_named_output(text, names, place as u32, output(atoms, *term))?;
    }
    Ok(())
}

/// Adds what is listed for the answer terms, or the number 1 where there are none.
fn push_outputs(text: &mut Vec<u8>, names: &Names, query: &Query) -> Result<(), NoMemory>
    ensures { OnOk
        result
        (text.new.items ≡
        text.old.items ++ outputs_text names.now (outputs_of query.now.atoms query.now.answers)) }
{
    match query.answers() {
        [] => push_named_output(text, names, 0, Output::One),
        answers => push_answers(text, names, query.atoms(), answers),
    }
}

/// Adds the tables of the atoms, each with its alias.
fn push_from(text: &mut Vec<u8>, names: &Names, atoms: &[Atom]) -> Result<(), NoMemory>
    requires { length atoms.now < 2 ^ 32 }
    ensures text { OnOk
        result
        (text.new.items ≡ text.old.items ++ from_text names.now (map table_of_atom atoms.now)) }
    ensures small { OnOk result (AreSmall atoms.now) }
{
    for (alias, atom) in atoms.iter().enumerate() {
        push_comma(text, alias)?;
        push_table(text, names, table_of(atom))?;
        text.extend_from_slice(b" AS ")?;
        push_alias(text, alias as u32)?;
    }
    Ok(())
}

/// Adds the condition, before which so many others stand.
fn push_condition(
    text: &mut Vec<u8>,
    names: &Names,
    before: u32,
    condition: Condition,
) -> Result<(), NoMemory>
    ensures { OnOk
        result
        (text.new.items ≡ text.old.items ++ led_text names.now before condition) }
{
    push_word(text, before)?;
    match condition {
        Condition::Same(one, other) => {
            push_column(text, one)?;
            text.extend_from_slice(b" = ")?;
            push_column(text, other)
        }
        Condition::Is(column, constant) => {
            push_column(text, column)?;
            text.extend_from_slice(b" = ")?;
            push_value(text, names, constant)
        }
    }
}

/// Adds the word before a condition, before which so many others stand.
fn push_word(text: &mut Vec<u8>, before: u32) -> Result<(), NoMemory>
    ensures { OnOk result (text.new.items ≡ text.old.items ++ word_before before) }
{
    if before == 0 {
        text.extend_from_slice(b" WHERE ")?;
    } else {
        text.extend_from_slice(b" AND ")?;
    }
    Ok(())
}

/// Adds the conditions of the terms of the atom with this alias, before which so many others stand, and says how many stand
/// there then.
fn push_row_conditions(
    text: &mut Vec<u8>,
    names: &Names,
    atoms: &[Atom],
    alias: u32,
    terms: &[Term],
    before: u32,
) -> Result<u32, NoMemory>
    requires few_atoms { length atoms.now < 2 ^ 32 }
    requires few { before + length terms.now < 2 ^ 32 }
    ensures text { OnOk
        result
        (text.new.items ≡
        text.old.items ++
        conditions_text names.now before (row_conditions atoms.now alias terms.now)) }
    ensures count { IfOk result (λ count.
        count ≡ before + length (row_conditions atoms.now alias terms.now)) }
    ensures few { IfOk result (λ count. count ≤ before + length terms.now) }
{
    let mut count = before;
    for (column, term) in terms.iter().enumerate() {
        let here = Column {
            alias,
            column: column as u32,
        };
        if let Some(condition) = condition(atoms, here, *term) {
            push_condition(text, names, count, condition)?;
            count += 1;
        }
    }
    Ok(count)
}

/// Adds the conditions of the terms of the atoms.
fn push_conditions(text: &mut Vec<u8>, names: &Names, atoms: &[Atom]) -> Result<(), NoMemory>
    requires { 16 * length atoms.now < 2 ^ 32 }
    ensures { OnOk
        result
        (text.new.items ≡
        text.old.items ++ conditions_text names.now 0 (conditions_of atoms.now)) }
{
    let mut count = 0;
    for (alias, atom) in atoms.iter().enumerate() {
        count = push_row_conditions(text, names, atoms, alias as u32, atom.terms(), count)?;
    }
    Ok(())
}

/// Adds the query's select.
fn push_select(text: &mut Vec<u8>, names: &Names, query: &Query) -> Result<(), NoMemory>
    ensures text { OnOk
        result
        (text.new.items ≡ text.old.items ++ select_text_of names.now (select_of query.now)) }
    ensures printed { OnOk result (PrintsHeld names.now query.now) }
{
    text.extend_from_slice(b"SELECT DISTINCT ")?;
    push_outputs(text, names, query)?;
    text.extend_from_slice(b" FROM ")?;
    push_from(text, names, query.atoms())?;
    push_conditions(text, names, query.atoms())
}

/// Adds what stands between two selects, but for the first place.
fn push_union(text: &mut Vec<u8>, place: u32) -> Result<(), NoMemory>
    ensures { OnOk result (text.new.items ≡ text.old.items ++ union_before place) }
{
    if place > 0 {
        text.extend_from_slice(b"\nUNION ")?;
    }
    Ok(())
}

/// The select of a query, without a semicolon or a line feed: a table for each atom, in order, with the aliases `t0`, `t1`
/// and so on; a condition for each constant, and for each occurrence of a variable but its first; and the answer list as
/// columns `c1`, `c2` and so on, or the number 1 as `c1` where the answer list is empty. It yields what the query answers
/// (`laws::select_means_query`). Where all names of the query are held, the text has no other reading
/// (`laws::text_has_one_statement`).
///
/// Takes the square of the number of terms at most. A name that isn't held is printed as nothing. The only error is want of
/// memory.
pub fn select_text(alloc: Global, names: &Names, query: &Query) -> Result<Vec<u8>, NoMemory>
    ensures text { IfOk result (λ text.
        text.items ≡ select_text_of names.now (select_of query.now)) }
    ensures printed { OnOk result (PrintsHeld names.now query.now) }
{
    let mut text = Vec::new(alloc);
    push_select(&mut text, names, query)?;
    Ok(text)
}

/// Adds the select of the member at the place, behind what joins it to the one before.
fn push_member(text: &mut Vec<u8>, names: &Names, place: u32, query: &Query) -> Result<(), NoMemory>
    ensures text { OnOk
        result
        (text.new.items ≡
        text.old.items ++ member_text_of names.now place (select_of query.now)) }
    ensures printed { OnOk result (PrintsHeld names.now query.now) }
{
    push_union(text, place)?;
    push_select(text, names, query)
}

/// The select of the member at this place of a union, from 0, behind what joins it to the one before: a line feed and `UNION`.
/// These texts of all members, in order, and `END` make the statement, without all of it at once. The only error is want of
/// memory.
pub fn member_text(
    alloc: Global,
    names: &Names,
    place: u32,
    query: &Query,
) -> Result<Vec<u8>, NoMemory>
    ensures text { IfOk result (λ text.
        text.items ≡ member_text_of names.now place (select_of query.now)) }
    ensures printed { OnOk result (PrintsHeld names.now query.now) }
{
    let mut text = Vec::new(alloc);
    push_member(&mut text, names, place, query)?;
    Ok(text)
}

/// The statement of a union that isn't empty: the selects of its members, in order, joined by `UNION`, one on a line, and a
/// semicolon and a line feed. It yields what the union answers (`laws::statement_means_union`), and its text has no other
/// reading where all names are held (`laws::text_has_one_statement`). The only error is want of memory.
pub fn statement_text(alloc: Global, names: &Names, union: &Union) -> Result<Vec<u8>, NoMemory>
    requires { 0 < length union.now }
    ensures text { IfOk result (λ text.
        text.items ≡ statement_text_of names.now (statement_of union.now)) }
    ensures printed { OnOk result (All (PrintsHeld names.now) union.now) }
{
    let mut text = Vec::new(alloc);
    for place in 0..union.len() {
        push_member(&mut text, names, place, union.query(place))?;
    }
    text.extend_from_slice(END)?;
    Ok(text)
}
