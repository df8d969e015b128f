//! What SQLite, as the kit has it, gives for worked statements over worked facts.
use crate::asserts::{reads, sure};
use crate::made::{letters, names_of};
use crate::statements::{ODD, statement};
use crate::tables::lines;
use sqlite::types::ValueRef;
use sqlite::{Connection, Error, MemStore, Row};
use std::alloc::{AllocError, Global};
use std::process::Abort;
use ucq_terms::Names;

/// Runs the statements, in an empty database.
fn database(alloc: Global, statements: &str) -> Result<Connection<MemStore>, Error> {
    let mut database = Connection::open_in_memory(alloc)?;
    database.execute_batch(statements)?;
    Ok(database)
}

/// The rows of the statement.
fn asked(database: &mut Connection<MemStore>, statement: &str) -> Result<Vec<Row>, Error> {
    database.query_all(statement, &[])
}

/// Adds the text of a cell. The number 1 is `#1`, and what else is no text is `#`.
fn push_cell(text: &mut Vec<u8>, row: &Row, place: usize) -> Result<(), AllocError> {
    if place > 0 {
        text.push(b',')?;
    }
    match row.get_ref(place) {
        Ok(ValueRef::Text(bytes)) => text.extend_from_slice(bytes)?,
        Ok(ValueRef::Int(1)) => text.extend_from_slice(b"#1")?,
        _ => text.push(b'#')?,
    }
    Ok(())
}

/// The row's text between parentheses.
fn row_text(alloc: Global, row: &Row) -> Result<Vec<u8>, AllocError> {
    let mut text = Vec::from_slice(alloc, b"(")?;
    for place in 0..row.column_count() {
        push_cell(&mut text, row, place)?;
    }
    text.push(b')')?;
    Ok(text)
}

/// The texts of the rows, in byte order.
fn in_order(alloc: Global, rows: &[Row]) -> Result<Vec<Vec<u8>>, AllocError> {
    let mut texts = Vec::new(alloc);
    for row in rows {
        texts.push(row_text(alloc, row)?)?;
    }
    texts.sort()?;
    Ok(texts)
}

/// The texts of the rows in byte order, one after another.
fn rows_text(alloc: Global, rows: &[Row]) -> Result<Vec<u8>, AllocError> {
    let mut text = Vec::new(alloc);
    for row in in_order(alloc, rows)?.iter() {
        text.extend_from_slice(row.as_slice())?;
    }
    Ok(text)
}

/// What the statement of the union gives over the tables of the facts.
fn given(rt: &impl Abort, alloc: Global, facts: &[u8], statement: &[u8]) -> Vec<u8> {
    let facts = sure(rt, str::from_utf8(facts));
    let statement = sure(rt, str::from_utf8(statement));
    let mut database = sure(rt, database(alloc, facts));
    let rows = sure(rt, asked(&mut database, statement));
    sure(rt, rows_text(alloc, rows.as_slice()))
}

/// Asserts of unions over facts which rows their statements give.
fn assert_rows(rt: &impl Abort, alloc: Global, names: &Names, rows: &[(&str, &str, &[u8])]) {
    for (union, facts, wanted) in rows {
        let facts = lines(rt, alloc, names, facts);
        let statement = statement(rt, alloc, names, union);
        let found = given(rt, alloc, facts.as_slice(), statement.as_slice());
        reads(rt, found.as_slice(), wanted, union);
    }
}

/// Unions, facts, and the rows of the answers in byte order.
const ROWS: [(&str, &str, &[u8]); 12] = [
    ("?X pXY", "pab pac pbb", b"(a)(b)"),
    ("?XZ pXY qYZ", "pab qbc pcb qdd", b"(a,c)(c,c)"),
    ("?XY pXY pYZ pZX", "pab pba pcc pdb", b"(c,c)"),
    ("?X pXX", "pab pbb", b"(b)"),
    ("?XbX pXa", "pba pcd pab", b"(b,b,b)"),
    ("?XY pX qY", "pa pb pbc qc qd", b"(a,c)(a,d)(b,c)(b,d)"),
    ("? pXY pYZ", "pab pbc", b"(#1)"),
    ("? pXY pYZ", "pab pcd", b""),
    ("? pX|? qXX", "pa qbb", b"(#1)"),
    ("?X pX|?X qX|?X pX qX", "pa pb qb qc", b"(a)(b)(c)"),
    ("?Xb pXb|?aX qX", "pab pcb pcd qb qc", b"(a,b)(a,c)(c,b)"),
    ("?X pX5", "p15 p56 p65", b"(1)(6)"),
];

#[test]
fn a_database_gives_the_answers(rt: HostRuntime) {
    let names = letters(&rt, rt.alloc());
    assert_rows(&rt, rt.alloc(), &names, &ROWS);
}

/// Unions over the odd names, facts, and the rows of the answers in byte order.
const ODD_ROWS: [(&str, &str, &[u8]); 3] = [
    (
        "?\u{4}X \u{0}X\u{1}",
        "\u{0}\u{2}\u{1} \u{0}\u{3}\u{2} \u{0}\u{7}\u{1}",
        b"(e f%,\")(e f%,)",
    ),
    (
        "?XY \u{6}X \u{1}XY|?\u{3}X \u{1}X",
        "\u{6}\u{4} \u{1}\u{4}\u{0} \u{1}\u{1}\u{3} \u{1}\u{1}",
        b"(',c'd)(e f%,a\"b)",
    ),
    (
        "?X \u{3}X\u{3}",
        "\u{3}\u{0}\u{3} \u{3}\u{1}\u{2}",
        b"(a\"b)",
    ),
];

#[test]
fn a_database_takes_names_between_quotes(rt: HostRuntime) {
    let names = names_of(&rt, rt.alloc(), &ODD);
    assert_rows(&rt, rt.alloc(), &names, &ODD_ROWS);
}
