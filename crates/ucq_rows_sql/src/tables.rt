//! Tables and the facts in them.
use crate::asserts::{holds, reads, sure};
use crate::made::{letters, names_of};
use crate::statements::ODD;
use indexmap::IndexSet;
use std::alloc::Global;
use std::process::Abort;
use ucq_sql::{
    Table, facts_line, first_unknown, have_one_caseless_name, is_of_constants, name_len,
    note_tables, run_of, table_line, table_name, table_of,
};
use ucq_terms::{Atom, Names, NoMemory};
use ucq_worked::{atom, atoms};

/// Adds the line that makes the table.
fn push_table(rt: &impl Abort, alloc: Global, text: &mut Vec<u8>, names: &Names, table: Table) {
    holds(rt, table.arity > 0);
    let line = sure(rt, table_line(alloc, names, table));
    sure(rt, text.extend_from_slice(line.as_slice()));
}

/// The tables of the facts.
fn tables_of(alloc: Global, facts: &[Atom]) -> Result<IndexSet<Table>, NoMemory> {
    let mut tables = IndexSet::new(alloc);
    note_tables(&mut tables, facts)?;
    Ok(tables)
}

/// Adds the lines that make the tables of the facts.
fn push_tables(rt: &impl Abort, alloc: Global, text: &mut Vec<u8>, names: &Names, facts: &[Atom]) {
    let tables = sure(rt, tables_of(alloc, facts));
    for table in tables.iter() {
        push_table(rt, alloc, text, names, *table);
    }
}

/// The line of these facts, which are of one table.
fn run_line(
    rt: &impl Abort,
    alloc: Global,
    names: &Names,
    table: Table,
    facts: &[Atom],
    count: u32,
) -> Vec<u8> {
    holds(rt, run_of(table, facts, count) == count);
    let run = &facts[..count as usize];
    holds(rt, !run.is_empty() && first_unknown(run).is_none());
    sure(rt, facts_line(alloc, names, table, run))
}

/// Adds the line of at most three of the first facts, and says how many they are.
fn push_run(
    rt: &impl Abort,
    alloc: Global,
    text: &mut Vec<u8>,
    names: &Names,
    facts: &[Atom],
) -> usize {
    holds(rt, !facts.is_empty());
    let table = table_of(&facts[0]);
    let count = run_of(table, facts, 3);
    let line = run_line(rt, alloc, names, table, facts, count);
    sure(rt, text.extend_from_slice(line.as_slice()));
    count as usize
}

/// The lines that make the tables of the facts, and then those that put them there, of at most three facts each.
pub(crate) fn lines(rt: &impl Abort, alloc: Global, names: &Names, text: &str) -> Vec<u8> {
    let facts = sure(rt, atoms(alloc, text));
    let mut lines = Vec::new(alloc);
    push_tables(rt, alloc, &mut lines, names, facts.as_slice());
    let mut place = 0usize;
    for _ in 0..facts.len() {
        if place < facts.len() {
            let rest = &facts.as_slice()[place..];
            place = place.saturating_add(push_run(rt, alloc, &mut lines, names, rest));
        }
    }
    lines
}

/// Asserts of facts what their lines are.
fn assert_lines(rt: &impl Abort, alloc: Global, names: &Names, rows: &[(&str, &[u8])]) {
    for (facts, wanted) in rows {
        let found = lines(rt, alloc, names, facts);
        reads(rt, found.as_slice(), wanted, facts);
    }
}

/// Facts and their lines.
const LINES: [(&str, &[u8]); 3] = [
    (
        "pab pcd",
        b"CREATE TABLE IF NOT EXISTS \"p/2\" (c1 VARCHAR, c2 VARCHAR);\nINSERT INTO \"p/2\" VALUES ('a', 'b'), ('c', 'd');\n",
    ),
    (
        "pab pcd pef pgh qa pa pb",
        b"CREATE TABLE IF NOT EXISTS \"p/2\" (c1 VARCHAR, c2 VARCHAR);\nCREATE TABLE IF NOT EXISTS \"q/1\" (c1 VARCHAR);\nCREATE TABLE IF NOT EXISTS \"p/1\" (c1 VARCHAR);\nINSERT INTO \"p/2\" VALUES ('a', 'b'), ('c', 'd'), ('e', 'f');\nINSERT INTO \"p/2\" VALUES ('g', 'h');\nINSERT INTO \"q/1\" VALUES ('a');\nINSERT INTO \"p/1\" VALUES ('a'), ('b');\n",
    ),
    (
        "pabcdefghijk",
        b"CREATE TABLE IF NOT EXISTS \"p/11\" (c1 VARCHAR, c2 VARCHAR, c3 VARCHAR, c4 VARCHAR, c5 VARCHAR, c6 VARCHAR, c7 VARCHAR, c8 VARCHAR, c9 VARCHAR, c10 VARCHAR, c11 VARCHAR);\nINSERT INTO \"p/11\" VALUES ('a', 'b', 'c', 'd', 'e', 'f', 'g', 'h', 'i', 'j', 'k');\n",
    ),
];

#[test]
fn facts_have_their_lines(rt: HostRuntime) {
    let names = letters(&rt, rt.alloc());
    assert_lines(&rt, rt.alloc(), &names, &LINES);
}

/// Facts of the odd names, and their lines.
const ODD_LINES: [(&str, &[u8]); 2] = [
    (
        "\u{0}\u{1}\u{2} \u{0}\u{3}\u{7}",
        b"CREATE TABLE IF NOT EXISTS \"a\"\"b/2\" (c1 VARCHAR, c2 VARCHAR);\nINSERT INTO \"a\"\"b/2\" VALUES ('c''d', '\"'), ('''', '');\n",
    ),
    (
        "\u{5}\u{4} \u{5}\u{5}",
        b"CREATE TABLE IF NOT EXISTS \"\xff\x80/1\" (c1 VARCHAR);\nINSERT INTO \"\xff\x80/1\" VALUES ('e f%'), ('\xff\x80');\n",
    ),
];

#[test]
fn facts_of_odd_names_have_their_lines(rt: HostRuntime) {
    let names = names_of(&rt, rt.alloc(), &ODD);
    assert_lines(&rt, rt.alloc(), &names, &ODD_LINES);
}

/// Asserts what the name of the word's table is, how many bytes it has without quotes, and whether the word's atom has
/// constants alone.
fn assert_table(
    rt: &impl Abort,
    alloc: Global,
    names: &Names,
    word: &str,
    wanted: &[u8],
    is_constant: bool,
) {
    let atom = sure(rt, atom(alloc, word));
    let table = table_of(&atom);
    let found = sure(rt, table_name(alloc, names, table));
    reads(rt, found.as_slice(), wanted, word);
    holds(rt, is_of_constants(&atom) == is_constant);
    holds(rt, name_len(names, table) == wanted.len().saturating_sub(2));
}

#[test]
fn a_table_is_named_by_its_predicate(rt: HostRuntime) {
    let names = letters(&rt, rt.alloc());
    assert_table(&rt, rt.alloc(), &names, "pab", b"\"p/2\"", true);
    assert_table(&rt, rt.alloc(), &names, "pabcdefghiX", b"\"p/10\"", false);
}

/// Tables with the letters of their names, and whether case alone tells them apart, if anything.
const CASELESS: [(u8, u8, u32, bool); 4] = [
    (b'p', b'P', 2, true),
    (b'p', b'p', 2, true),
    (b'p', b'P', 1, false),
    (b'p', b'Q', 2, false),
];

/// Asserts of the table of two columns with the first name, and of the other, whether they have one name.
fn assert_caseless(rt: &impl Abort, names: &Names, rows: &[(u8, u8, u32, bool)]) {
    for (one, other, arity, wanted) in rows {
        let one = Table {
            name: u32::from(*one),
            arity: 2,
        };
        let other = Table {
            name: u32::from(*other),
            arity: *arity,
        };
        holds(rt, have_one_caseless_name(names, one, other) == *wanted);
    }
}

#[test]
fn tables_may_differ_in_case_alone(rt: HostRuntime) {
    let names = letters(&rt, rt.alloc());
    assert_caseless(&rt, &names, &CASELESS);
}
