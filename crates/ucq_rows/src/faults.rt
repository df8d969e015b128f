//! Refused words and refused files.
use crate::asserts::{equal, holds, sure};
use crate::harness::{begins, ends, run_on, run_over};
use crate::university::UNIVERSITY;
use std::alloc::{AllocError, Global};
use std::process::Abort;

const TWO_EDGES: &str = "? :- p(X,Y), p(Z,W).\n";

/// Files that are refused, and the line of each.
const REFUSED: [(&str, &str); 20] = [
    ("? :- p(a)", "ucq: file 0 byte 0: statement not ended"),
    ("? :- p(X) & q(X).", "ucq: file 0 byte 10: bad byte"),
    ("? :- ex:p(X).", "ucq: file 0 byte 5: unknown prefix"),
    (
        "@base <http://a/>\n? :- p(X).",
        "ucq: file 0 statement 0: base is not built",
    ),
    ("", "ucq: no query"),
    ("q(X) :- p(X).", "ucq: no query"),
    (
        "?(X) :- p(Y).",
        "ucq: file 0 statement 0: answer 0 is not in the body",
    ),
    (
        "? :- p(X), .",
        "ucq: file 0 statement 0 byte 11: bad statement",
    ),
    (
        "! :- p(X). ? :- p(X).",
        "ucq: file 0 statement 0: constraint is not built",
    ),
    ("? :- p().", "ucq: file 0 statement 0 byte 7: bad statement"),
    (
        "? :- p(1.5).",
        "ucq: file 0 statement 0 byte 8: bad statement",
    ),
    ("? :- X = Y.", "ucq: file 0 byte 7: bad byte"),
    ("\0", "ucq: file 0 byte 0: bad byte"),
    ("? :- p(\"a", "ucq: file 0 byte 7: bad byte"),
    (
        "? :- p(X)..",
        "ucq: file 0 statement 1 byte 10: bad statement",
    ),
    ("@fact", "ucq: file 0 statement 0 byte 0: bad statement"),
    (
        "? :- p(X,X,X,X,X,X,X,X,X,X,X,X,X,X,X,X,X).",
        "ucq: file 0 statement 0: arity limit passed with 17",
    ),
    (
        "@top p ? :- p(X).",
        "ucq: file 0 statement 0: top is not built",
    ),
    (
        "?(X,X,X,X,X,X,X,X,X,X,X,X,X,X,X,X,X) :- p(X).",
        "ucq: file 0 statement 0: answers limit passed with 17",
    ),
    (
        "?(X,a,Y) :- p(X,X).",
        "ucq: file 0 statement 0: answer 2 is not in the body",
    ),
];

/// Asserts of each file that it is refused with this line, and nothing printed.
fn assert_refused(rt: &impl Abort, alloc: Global, rows: &[(&str, &str)]) {
    for (file, line) in rows {
        let err = sure(rt, format!(in alloc; "{line}\n"));
        equal(
            rt,
            ends(rt, alloc, "f", file, 4, "", err.as_str()),
            true,
            line,
        );
    }
}

#[test]
fn a_refused_file_has_its_line_and_no_output(rt: HostRuntime) {
    assert_refused(&rt, rt.alloc(), &REFUSED);
}

/// A query of one atom, whose name has so many bytes.
fn named(alloc: Global, length: usize) -> Result<String, AllocError> {
    let name = "n".repeat(alloc, length)?;
    format!(in alloc; "? :- {name}(X).")
}

#[test]
fn a_name_has_at_most_1024_bytes(rt: HostRuntime) {
    let longest = sure(&rt, named(rt.alloc(), 1_024));
    let longer = sure(&rt, named(rt.alloc(), 1_025));
    let line = "ucq: file 0 statement 0: name limit passed with 1025";
    let finished = "% finished\n";
    holds(
        &rt,
        begins(&rt, rt.alloc(), "f", longest.as_str(), 0, finished),
    );
    assert_refused(&rt, rt.alloc(), &[(longer.as_str(), line)]);
}

/// A query of so many atoms, which are all different.
fn query_of(alloc: Global, atoms: u32) -> Result<String, AllocError> {
    let mut query = String::from_str(alloc, "? :- p(a)")?;
    for i in 1..atoms {
        write!(query, ", p(a{i})")?;
    }
    query.push_str(".")?;
    Ok(query)
}

#[test]
fn a_query_has_at_most_32_atoms(rt: HostRuntime) {
    let most = sure(&rt, query_of(rt.alloc(), 32));
    let more = sure(&rt, query_of(rt.alloc(), 33));
    let line = "ucq: file 0 statement 0: atoms limit passed with 33";
    let one = "% finished\n% queries 1\n";
    holds(&rt, begins(&rt, rt.alloc(), "f", most.as_str(), 0, one));
    assert_refused(&rt, rt.alloc(), &[(more.as_str(), line)]);
}

/// The beginning of a file, a piece, how often it follows, the end, and the line of the file.
const MANY: [(&str, &str, usize, &str, &str); 5] = [
    (
        "? :- p(X).",
        "p(X):-q(X).",
        4_097,
        "",
        "ucq: rules limit passed with 4097",
    ),
    (
        "p(X):-q(X).",
        "p(X):-q(X).",
        4_096,
        "?",
        "ucq: file 0 byte 45067: statement not ended",
    ),
    (
        "? :- p(X). p(a)",
        ",p(a)",
        1_048_576,
        ".",
        "ucq: facts limit passed with 1048577",
    ),
    ("p(a)", ",p(a)", 1_048_575, ".", "ucq: no query"),
    (
        "p(a).",
        "?:-p(X).",
        65,
        "",
        "ucq: queries limit passed with 65",
    ),
];

fn repeated(
    alloc: Global,
    before: &str,
    piece: &str,
    count: usize,
    after: &str,
) -> Result<String, AllocError> {
    let middle = piece.repeat(alloc, count)?;
    format!(in alloc; "{before}{middle}{after}")
}

/// Asserts of each file by its parts that it is refused with this line.
fn assert_many(rt: &impl Abort, alloc: Global, rows: &[(&str, &str, usize, &str, &str)]) {
    for (before, piece, count, after, line) in rows {
        let file = sure(rt, repeated(alloc, before, piece, *count, after));
        assert_refused(rt, alloc, &[(file.as_str(), line)]);
    }
}

#[test]
fn rules_facts_and_queries_are_counted_over_all_files(rt: HostRuntime) {
    assert_many(&rt, rt.alloc(), &MANY);
}

/// Whether the file is refused, and nothing printed.
fn is_refused(rt: &impl Abort, alloc: Global, file: &[u8]) -> bool {
    let told = run_on(rt, alloc, "f", file);
    told.status == 4 && told.out.len() == 0
}

/// Asserts that no front of the file without its last byte is read.
fn assert_fronts_refused(rt: &impl Abort, alloc: Global, file: &[u8]) {
    for length in 0..file.len().saturating_sub(1) {
        holds(rt, is_refused(rt, alloc, &file[..length]));
    }
}

#[test]
fn a_file_without_its_last_dot_is_refused(rt: HostRuntime) {
    assert_fronts_refused(&rt, rt.alloc(), UNIVERSITY.as_bytes());
}

/// Words that stand for no settings.
const BAD_WORDS: [&str; 16] = [
    "",
    "-x",
    "-h",
    "--budget 0 f",
    "--budget 65537 f",
    "--budget +1 f",
    "--budget 0000000001 f",
    "--budget 1 --budget 1 f",
    "--workers 0 g",
    "--workers 65 g",
    "--make 0",
    "--make 4001",
    "--make 1 --answers",
    "--make 1 f",
    "--make 1 --within",
    "--within --within f",
];

/// Asserts of the words how their run over two edges ends.
fn assert_ended(rt: &impl Abort, alloc: Global, rows: &[&str], status: u8, out: &str, err: &str) {
    for words in rows {
        let found = ends(rt, alloc, words, TWO_EDGES, status, out, err);
        equal(rt, found, true, words);
    }
}

#[test]
fn words_that_stand_for_no_settings_are_refused(rt: HostRuntime) {
    let err =
        "ucq: usage: ucq [--workers N] [--budget N] [--answers] [MODE] FILE... or ucq [--workers N] [--budget N] --make N\n";
    assert_ended(&rt, rt.alloc(), &BAD_WORDS, 2, "", err);
}

/// Words that stand for settings.
const GOOD_WORDS: [&str; 6] = [
    "--budget 1 f",
    "--budget=65536 f",
    "f --budget 000000009",
    "--workers 64 f",
    "--workers 8 --budget 2 -- f",
    "f",
];

#[test]
fn options_stand_anywhere(rt: HostRuntime) {
    let out = "% finished\n% queries 1\n? :- p(X0,X1).\n";
    assert_ended(&rt, rt.alloc(), &GOOD_WORDS, 0, out, "");
}

/// Small files.
const FILES: [(&str, &[u8]); 5] = [
    ("rules", b"q(X) :- p(X)."),
    ("query", b"?(X) :- q(X)."),
    ("facts", b"p(a)."),
    ("f", b"? :- p(X), ."),
    ("g", b"? :- p(X) & q(X)."),
];

/// Words over the small files, and the status, the output and the line.
const OVER_FILES: [(&str, u8, &str, &str); 4] = [
    (
        "rules query --answers facts facts",
        0,
        "% finished\n% queries 2\n?(X0) :- q(X0).\n?(X0) :- p(X0).\n% answers 1\n% (a)\n",
        "",
    ),
    (
        "f g",
        4,
        "",
        "ucq: file 0 statement 0 byte 11: bad statement\n",
    ),
    ("g f", 4, "", "ucq: file 0 byte 10: bad byte\n"),
    ("f missing", 3, "", "ucq: read fault in file 1 at byte 0\n"),
];

/// Asserts of words over files how the run ends.
fn assert_over(
    rt: &impl Abort,
    alloc: Global,
    files: &[(&str, &[u8])],
    rows: &[(&str, u8, &str, &str)],
) {
    for (words, status, out, err) in rows {
        let told = run_over(rt, alloc, words, files);
        equal(rt, told.is(*status, out, err), true, words);
    }
}

#[test]
fn several_files_are_one_input_and_the_first_that_is_refused_decides(rt: HostRuntime) {
    assert_over(&rt, rt.alloc(), &FILES, &OVER_FILES);
}

/// Words over long files, and the status, the output and the line.
const LONG: [(&str, u8, &str, &str); 4] = [
    ("longest", 4, "", "ucq: no query\n"),
    ("longest one", 4, "", "ucq: files too long at file 1\n"),
    (
        "one longest missing",
        4,
        "",
        "ucq: files too long at file 1\n",
    ),
    ("longer", 4, "", "ucq: files too long at file 0\n"),
];

/// A comment of so many bytes.
fn comment(rt: &impl Abort, alloc: Global, length: usize) -> String {
    sure(rt, "%".repeat(alloc, length))
}

#[test]
fn files_have_at_most_67108864_bytes_together(rt: HostRuntime) {
    let longest = comment(&rt, rt.alloc(), 67_108_864);
    let longer = comment(&rt, rt.alloc(), 67_108_865);
    let files: [(&str, &[u8]); 3] = [
        ("longest", longest.as_bytes()),
        ("longer", longer.as_bytes()),
        ("one", b"%"),
    ];
    assert_over(&rt, rt.alloc(), &files, &LONG);
}
