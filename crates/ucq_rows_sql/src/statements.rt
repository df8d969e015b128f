//! Statements of worked unions.
use crate::asserts::{holds, reads, sure};
use crate::made::{letters, names_of, union_of};
use std::alloc::Global;
use std::process::Abort;
use ucq_sql::{END, member_text, select_text, statement_text};
use ucq_terms::{Names, NoMemory, Union};

/// The statement of the union.
fn whole(rt: &impl Abort, alloc: Global, names: &Names, union: &Union) -> Vec<u8> {
    holds(rt, union.len() > 0);
    sure(rt, statement_text(alloc, names, union))
}

/// The statement of the union of the text.
pub(crate) fn statement(rt: &impl Abort, alloc: Global, names: &Names, text: &str) -> Vec<u8> {
    let union = union_of(rt, alloc, text);
    whole(rt, alloc, names, &union)
}

/// Asserts of unions what their statements are.
fn assert_statements(rt: &impl Abort, alloc: Global, names: &Names, rows: &[(&str, &[u8])]) {
    for (union, wanted) in rows {
        let found = statement(rt, alloc, names, union);
        reads(rt, found.as_slice(), wanted, union);
    }
}

/// Unions and their statements.
const STATEMENTS: [(&str, &[u8]); 14] = [
    (
        "?X pXY",
        b"SELECT DISTINCT t0.c1 AS c1 FROM \"p/2\" AS t0;\n",
    ),
    (
        "?XZ pXY qYZ",
        b"SELECT DISTINCT t0.c1 AS c1, t1.c2 AS c2 FROM \"p/2\" AS t0, \"q/2\" AS t1 WHERE t1.c1 = t0.c2;\n",
    ),
    (
        "?ZX pXY qYZ",
        b"SELECT DISTINCT t1.c2 AS c1, t0.c1 AS c2 FROM \"p/2\" AS t0, \"q/2\" AS t1 WHERE t1.c1 = t0.c2;\n",
    ),
    (
        "?X pXX",
        b"SELECT DISTINCT t0.c1 AS c1 FROM \"p/2\" AS t0 WHERE t0.c2 = t0.c1;\n",
    ),
    (
        "?X pXY pYX",
        b"SELECT DISTINCT t0.c1 AS c1 FROM \"p/2\" AS t0, \"p/2\" AS t1 WHERE t1.c1 = t0.c2 AND t1.c2 = t0.c1;\n",
    ),
    (
        "?X pXa",
        b"SELECT DISTINCT t0.c1 AS c1 FROM \"p/2\" AS t0 WHERE t0.c2 = 'a';\n",
    ),
    (
        "?aX pX",
        b"SELECT DISTINCT 'a' AS c1, t0.c1 AS c2 FROM \"p/1\" AS t0;\n",
    ),
    (
        "?XX pX",
        b"SELECT DISTINCT t0.c1 AS c1, t0.c1 AS c2 FROM \"p/1\" AS t0;\n",
    ),
    ("? pXY", b"SELECT DISTINCT 1 AS c1 FROM \"p/2\" AS t0;\n"),
    (
        "? pab",
        b"SELECT DISTINCT 1 AS c1 FROM \"p/2\" AS t0 WHERE t0.c1 = 'a' AND t0.c2 = 'b';\n",
    ),
    (
        "?Y pXaY qYX pXbX",
        b"SELECT DISTINCT t0.c3 AS c1 FROM \"p/3\" AS t0, \"q/2\" AS t1, \"p/3\" AS t2 WHERE t0.c2 = 'a' AND t1.c1 = t0.c3 AND t1.c2 = t0.c1 AND t2.c1 = t0.c1 AND t2.c2 = 'b' AND t2.c3 = t0.c1;\n",
    ),
    (
        "?K pA pB pC pD pE pF pG pH pI pJ pLMNOPQRSTUK",
        b"SELECT DISTINCT t10.c11 AS c1 FROM \"p/1\" AS t0, \"p/1\" AS t1, \"p/1\" AS t2, \"p/1\" AS t3, \"p/1\" AS t4, \"p/1\" AS t5, \"p/1\" AS t6, \"p/1\" AS t7, \"p/1\" AS t8, \"p/1\" AS t9, \"p/11\" AS t10;\n",
    ),
    (
        "?X pX|?X qYX|?a rab",
        b"SELECT DISTINCT t0.c1 AS c1 FROM \"p/1\" AS t0\nUNION SELECT DISTINCT t0.c2 AS c1 FROM \"q/2\" AS t0\nUNION SELECT DISTINCT 'a' AS c1 FROM \"r/2\" AS t0 WHERE t0.c1 = 'a' AND t0.c2 = 'b';\n",
    ),
    (
        "? pX|? qXX",
        b"SELECT DISTINCT 1 AS c1 FROM \"p/1\" AS t0\nUNION SELECT DISTINCT 1 AS c1 FROM \"q/2\" AS t0 WHERE t0.c2 = t0.c1;\n",
    ),
];

#[test]
fn a_union_has_its_statement(rt: HostRuntime) {
    let names = letters(&rt, rt.alloc());
    assert_statements(&rt, rt.alloc(), &names, &STATEMENTS);
}

/// Names with quotes, a space, a percent sign, bytes that are no letters, and a slash; and no bytes.
pub(crate) const ODD: [&[u8]; 8] = [
    b"a\"b",
    b"c'd",
    b"\"",
    b"'",
    b"e f%",
    b"\xff\x80",
    b"p/1",
    b"",
];

/// Unions over the odd names, each of which stands by its number, and their statements.
const ODD_STATEMENTS: [(&str, &[u8]); 10] = [
    (
        "?X \u{0}X\u{1}",
        b"SELECT DISTINCT t0.c1 AS c1 FROM \"a\"\"b/2\" AS t0 WHERE t0.c2 = 'c''d';\n",
    ),
    (
        "?X \u{1}X\u{0}",
        b"SELECT DISTINCT t0.c1 AS c1 FROM \"c'd/2\" AS t0 WHERE t0.c2 = 'a\"b';\n",
    ),
    (
        "? \u{2}\u{3}",
        b"SELECT DISTINCT 1 AS c1 FROM \"\"\"/1\" AS t0 WHERE t0.c1 = '''';\n",
    ),
    (
        "?\u{2} \u{3}X",
        b"SELECT DISTINCT '\"' AS c1 FROM \"'/1\" AS t0;\n",
    ),
    (
        "?\u{4} \u{4}X",
        b"SELECT DISTINCT 'e f%' AS c1 FROM \"e f%/1\" AS t0;\n",
    ),
    (
        "? \u{5}\u{5}",
        b"SELECT DISTINCT 1 AS c1 FROM \"\xff\x80/1\" AS t0 WHERE t0.c1 = '\xff\x80';\n",
    ),
    (
        "?X \u{4}X \u{4}XY",
        b"SELECT DISTINCT t0.c1 AS c1 FROM \"e f%/1\" AS t0, \"e f%/2\" AS t1 WHERE t1.c1 = t0.c1;\n",
    ),
    (
        "?X \u{6}X",
        b"SELECT DISTINCT t0.c1 AS c1 FROM \"p/1/1\" AS t0;\n",
    ),
    (
        "?\u{7} \u{6}\u{7}",
        b"SELECT DISTINCT '' AS c1 FROM \"p/1/1\" AS t0 WHERE t0.c1 = '';\n",
    ),
    (
        "?X dXd",
        b"SELECT DISTINCT t0.c1 AS c1 FROM \"/2\" AS t0 WHERE t0.c2 = '';\n",
    ),
];

#[test]
fn a_name_stands_between_quotes(rt: HostRuntime) {
    let names = names_of(&rt, rt.alloc(), &ODD);
    assert_statements(&rt, rt.alloc(), &names, &ODD_STATEMENTS);
}

/// The texts of the members one after another, and the end.
fn in_parts(alloc: Global, names: &Names, union: &Union) -> Result<Vec<u8>, NoMemory> {
    let mut text = Vec::new(alloc);
    for place in 0..union.len() {
        let member = member_text(alloc, names, place, union.query(place))?;
        text.extend_from_slice(member.as_slice())?;
    }
    text.extend_from_slice(END)?;
    Ok(text)
}

#[test]
fn members_are_printed_one_at_a_time(rt: HostRuntime) {
    let names = letters(&rt, rt.alloc());
    let union = union_of(&rt, rt.alloc(), "?X pX|?b qb");
    let found = sure(&rt, in_parts(rt.alloc(), &names, &union));
    reads(
        &rt,
        found.as_slice(),
        b"SELECT DISTINCT t0.c1 AS c1 FROM \"p/1\" AS t0\nUNION SELECT DISTINCT 'b' AS c1 FROM \"q/1\" AS t0 WHERE t0.c1 = 'b';\n",
        "members",
    );
}

/// The select of the first member.
fn first_select(rt: &impl Abort, alloc: Global, names: &Names, text: &str) -> Vec<u8> {
    let union = union_of(rt, alloc, text);
    holds(rt, union.len() > 0);
    sure(rt, select_text(alloc, names, union.query(0)))
}

#[test]
fn a_select_has_no_end(rt: HostRuntime) {
    let names = letters(&rt, rt.alloc());
    let found = first_select(&rt, rt.alloc(), &names, "?X pX|?b qb");
    let wanted = b"SELECT DISTINCT t0.c1 AS c1 FROM \"p/1\" AS t0";
    reads(&rt, found.as_slice(), wanted, "a select");
}
