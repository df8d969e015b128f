//! What files stand for.
ghost use Rattle.std.specs.Prelude.{◌≤◌, ◌^◌, length};

use crate::asserts::{equal, holds, reads, sure};
use std::alloc::{AllocError, Global};
use std::process::Abort;
use ucq_reader::{Asked, Input, ReadFault, made_input, read_files};
use ucq_terms::Names;

const UNIVERSITY: &str = "% a small university
@prefix ub: <http://example.org/univ#>

@facts
[f1] ub:Professor(ann), ub:teaches(ann, ub:logic).
[f2] ub:Lecturer(bob), ub:teaches(bob, \"Databases\"@en).
[f3] ub:headOf(cat, maths).
[f4] ub:Student(dan), ub:takes(dan, ub:logic), ub:advisor(dan, A).

@rules
[r1] ub:Faculty(X) :- ub:Professor(X).
[r2] ub:Faculty(X) :- ub:Lecturer(X).
[r3] ub:Employee(X) :- ub:Faculty(X).
[r4] ub:Person(X) :- ub:Employee(X).
[r5] ub:Person(X) :- ub:Student(X).
[r6] ub:worksFor(X,D), ub:Department(D) :- ub:Employee(X).
[r7] ub:worksFor(X,D) :- ub:headOf(X,D).
[r8] ub:Professor(X) :- ub:headOf(X,D).
[r9] ub:Department(D) :- ub:headOf(X,D).
[r10] ub:Course(C) :- ub:teaches(X,C).
[r11] ub:Faculty(X) :- ub:teaches(X,C).
[r12] ub:advisor(X,P), ub:Professor(P) :- ub:Student(X).

@queries
[q] ?(X) :- ub:Person(X), ub:worksFor(X,D), ub:Department(D).
";

/// What the one file stands for.
fn read_one(alloc: Global, text: &[u8]) -> Result<Input, ReadFault>
    requires { length text.now ≤ 2 ^ 24 }
{
    let mut files = Vec::new(alloc);
    files.push(text.to_vec(alloc)?)?;
    read_files(alloc, files.as_slice())
}

/// What the two files stand for.
fn read_two(alloc: Global, first: &[u8], second: &[u8]) -> Result<Input, ReadFault>
    requires first { length first.now ≤ 2 ^ 24 }
    requires second { length second.now ≤ 2 ^ 24 }
{
    let mut files = Vec::new(alloc);
    files.push(first.to_vec(alloc)?)?;
    files.push(second.to_vec(alloc)?)?;
    read_files(alloc, files.as_slice())
}

/// How many rules and fact atoms there are, and for each query its label and how many answers and atoms it has.
fn counts(alloc: Global, input: &Input) -> Result<String, AllocError> {
    let (rules, facts) = (input.rules.len(), input.facts.len());
    let mut line = format!(in alloc; "{rules} {facts}")?;
    for asked in &input.queries {
        line.push_str(asked_counts(alloc, asked)?.as_str())?;
    }
    Ok(line)
}

fn asked_counts(alloc: Global, asked: &Asked) -> Result<String, AllocError> {
    let (answers, atoms) = (asked.query.answers().len(), asked.query.atoms().len());
    let label = match &asked.label {
        Some(label) => String::from_utf8_lossy(alloc, label.text())?,
        None => String::new(alloc),
    };
    format!(in alloc; " {label}{answers} {atoms}")
}

/// The same, or the refusal, as a line.
fn line_of(rt: &impl Abort, alloc: Global, read: Result<Input, ReadFault>) -> String {
    match read {
        Ok(input) => sure(rt, counts(alloc, &input)),
        Err(ReadFault::Memory) => panic!(rt; "no memory"),
        Err(fault) => sure(rt, format!(in alloc; "{fault:?}")),
    }
}

/// The line of a file.
fn line(rt: &impl Abort, alloc: Global, file: &str) -> String {
    assert!(rt; file.len() <= 1 << 20);
    line_of(rt, alloc, read_one(alloc, file.as_bytes()))
}

/// Asserts of each file what its line is.
fn assert_lines(rt: &impl Abort, alloc: Global, rows: &[(&str, &str)]) {
    for (file, wanted) in rows {
        reads(rt, line(rt, alloc, file).as_str(), wanted, file);
    }
}

/// Files, and how many rules, fact atoms, answers and query atoms each has, or why it is refused.
const FILES: [(&str, &str); 17] = [
    ("? :- p(a)", "OpenEnd { file: 0, at: 0 }"),
    ("? :- p(X) & q(X).", "BadByte { file: 0, at: 10 }"),
    ("? :- X = Y.", "BadByte { file: 0, at: 7 }"),
    (
        "? :- p(X), .",
        "BadStatement { file: 0, number: 0, at: 11 }",
    ),
    ("? :- p().", "BadStatement { file: 0, number: 0, at: 7 }"),
    ("? :- p(1.5).", "BadStatement { file: 0, number: 0, at: 8 }"),
    ("a:-b.", "BadStatement { file: 0, number: 0, at: 1 }"),
    ("? :- ex:p(X).", "UnknownPrefix { file: 0, at: 5 }"),
    ("@top ex:p ? :- p(X).", "UnknownPrefix { file: 0, at: 5 }"),
    (
        "? :- a:p(X). @prefix a: <u>",
        "UnknownPrefix { file: 0, at: 5 }",
    ),
    (
        "p(X) :- q(X). @base <i> ? :- ex:p(X).",
        "NotBuilt { file: 0, number: 1, kind: Base }",
    ),
    (
        "@base <http://a/>\n? :- p(X).",
        "NotBuilt { file: 0, number: 0, kind: Base }",
    ),
    (
        "! :- p(X). ? :- p(X).",
        "NotBuilt { file: 0, number: 0, kind: Constraint }",
    ),
    ("?(X) :- p(Y).", "Unsafe { file: 0, number: 0, place: 0 }"),
    ("?(a,X) :- p(Y).", "Unsafe { file: 0, number: 0, place: 1 }"),
    ("", "NoQuery"),
    (
        "[a] ? :- p(X). ?(X) :- q(X), p(X). [c d] ? :- p(X).",
        "0 0 [a]0 1 1 2 [c d]0 1",
    ),
];

#[test]
fn refusals_are_exact(rt: HostRuntime) {
    assert_lines(&rt, rt.alloc(), &FILES);
}

/// Two files, and the same of both together.
const TWO_FILES: [(&str, &str, &str); 4] = [
    (
        "? :- p(X), .",
        "? :- p(X) & q(X).",
        "BadStatement { file: 0, number: 0, at: 11 }",
    ),
    (
        "? :- p(X).",
        "? :- p(X) & q(X).",
        "BadByte { file: 1, at: 10 }",
    ),
    ("? :- p(X).", "? :- p(X).", "0 0 0 1 0 1"),
    ("p(a), q(Z).", "? :- p(X).", "0 2 0 1"),
];

/// The line of two files.
fn line_of_two(rt: &impl Abort, alloc: Global, first: &str, second: &str) -> String {
    assert!(rt; first.len() <= 100 && second.len() <= 100);
    let read = read_two(alloc, first.as_bytes(), second.as_bytes());
    line_of(rt, alloc, read)
}

/// Asserts of each two files what their line is.
fn assert_two(rt: &impl Abort, alloc: Global, rows: &[(&str, &str, &str)]) {
    for (first, second, wanted) in rows {
        let line = line_of_two(rt, alloc, first, second);
        reads(rt, line.as_str(), wanted, second);
    }
}

#[test]
fn the_first_file_that_is_refused_decides(rt: HostRuntime) {
    assert_two(&rt, rt.alloc(), &TWO_FILES);
}

/// A piece that many times between two ends.
fn repeated(
    alloc: Global,
    before: &str,
    piece: &str,
    count: usize,
    after: &str,
) -> Result<String, AllocError> {
    let middle = piece.repeat(alloc, count)?;
    format!(in alloc; "{before}{middle}{after}")
}

/// Files by their parts, and what they have or why they are refused.
const LIMITS: [(&str, &str, usize, &str, &str); 12] = [
    (
        "? :- p(X)",
        ",p(X)",
        32,
        ".",
        "Limit { file: 0, number: 0, which: Atoms, count: 33 }",
    ),
    ("? :- p(X)", ",p(X)", 31, ".", "0 0 0 1"),
    (
        "? :- p(X",
        ",X",
        16,
        ").",
        "Limit { file: 0, number: 0, which: Arity, count: 17 }",
    ),
    ("? :- p(X", ",X", 15, ").", "0 0 0 1"),
    (
        "?(X",
        ",X",
        16,
        ") :- p(X).",
        "Limit { file: 0, number: 0, which: Answers, count: 17 }",
    ),
    ("?(X", ",X", 15, ") :- p(X).", "0 0 16 1"),
    (
        "? :- ",
        "p",
        1025,
        "(X).",
        "Limit { file: 0, number: 0, which: Name, count: 1025 }",
    ),
    ("? :- ", "p", 1024, "(X).", "0 0 0 1"),
    (
        "@prefix a: <u> ? :- a:",
        "p",
        1022,
        "(X).",
        "Limit { file: 0, number: 1, which: Name, count: 1025 }",
    ),
    ("@prefix a: <u> ? :- a:", "p", 1021, "(X).", "0 0 0 1"),
    (
        "",
        "p(X):-q(X).",
        4097,
        "",
        "TooMany { which: Rules, count: 4097 }",
    ),
    ("? :- p(X).", "p(X):-q(X).", 4096, "", "4096 0 0 1"),
];

/// Asserts of each file by its parts what its line is.
fn assert_repeated(rt: &impl Abort, alloc: Global, rows: &[(&str, &str, usize, &str, &str)]) {
    for (before, piece, count, after, wanted) in rows {
        let file = sure(rt, repeated(alloc, before, piece, *count, after));
        reads(rt, line(rt, alloc, file.as_str()).as_str(), wanted, before);
    }
}

#[test]
fn limits_hold_to_the_last_one(rt: HostRuntime) {
    assert_repeated(&rt, rt.alloc(), &LIMITS);
}

#[test]
fn the_university_is_read_with_and_without_its_last_line_feed(rt: HostRuntime) {
    let unended = UNIVERSITY.trim_end_matches('\n');
    assert_lines(
        &rt,
        rt.alloc(),
        &[(UNIVERSITY, "12 8 [q]1 3"), (unended, "12 8 [q]1 3")],
    );
}

/// Asserts that the file is refused.
fn refuses(rt: &impl Abort, alloc: Global, file: &[u8]) {
    assert!(rt; file.len() <= 1 << 20);
    match read_one(alloc, file) {
        Ok(_) | Err(ReadFault::Memory) => panic!(rt; "{} bytes are not refused", file.len()),
        Err(_) => {}
    }
}

/// Asserts that no front of the text without its last byte is read.
fn refuses_fronts(rt: &impl Abort, alloc: Global, text: &[u8]) {
    for end in 0..text.len().saturating_sub(1) {
        refuses(rt, alloc, &text[..end]);
    }
}

#[test]
fn no_front_of_the_university_without_the_last_dot_is_read(rt: HostRuntime) {
    refuses_fronts(&rt, rt.alloc(), UNIVERSITY.as_bytes());
}

/// The file that is made for 1.
const MADE: &str = "c0(X) :- c1(X). r(X,Y), c0(Y) :- d(X). ?(X) :- r(X,Y), c0(Y).
r(u0,v0), c0(v0). r(u1,v1), c1(v1). d(w).";

/// Its names, in the order of their numbers.
const NAMES: [&str; 9] = ["c0", "c1", "r", "d", "u0", "v0", "u1", "v1", "w"];

/// Asserts that the names have these texts in turn, and no more.
fn assert_names(rt: &impl Abort, names: &Names, texts: &[&str]) {
    let mut number = 0u32;
    for text in texts {
        equal(rt, names.find(text.as_bytes()), Some(number), text);
        number = number.saturating_add(1);
    }
    equal(rt, names.len(), number, "names");
}

/// What is made for that number.
fn made(rt: &impl Abort, alloc: Global, number: u32) -> Input {
    assert!(rt; 0 < number && number <= 4_000);
    sure(rt, made_input(alloc, number))
}

/// Asserts that each has one query, without a label, and that the two are equal.
fn same_queries(rt: &impl Abort, made: &[Asked], read: &[Asked]) {
    holds(rt, made.len() == 1 && read.len() == 1);
    assert!(rt; made.len() == 1 && read.len() == 1);
    holds(rt, made[0].label.is_none() && read[0].label.is_none());
    holds(rt, made[0].query.same(&read[0].query));
}

#[test]
fn made_input_is_what_its_text_stands_for(rt: HostRuntime) {
    let made = made(&rt, rt.alloc(), 1);
    let read = sure(&rt, read_one(rt.alloc(), MADE.as_bytes()));
    holds(&rt, made.rules == read.rules && made.facts == read.facts);
    same_queries(&rt, &made.queries, &read.queries);
    assert_names(&rt, &made.names, &NAMES);
    assert_names(&rt, &read.names, &NAMES);
}

#[test]
fn made_input_grows_with_its_number(rt: HostRuntime) {
    let made = made(&rt, rt.alloc(), 120);
    equal(&rt, made.names.len(), 366, "names");
    equal(&rt, made.names.find(b"c120"), Some(120), "c120");
    equal(&rt, made.names.find(b"c121"), None, "c121");
    let line = sure(&rt, counts(rt.alloc(), &made));
    reads(&rt, line.as_str(), "121 243 1 2", "counts");
}
