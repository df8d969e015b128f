//! The tokens of texts.
use crate::asserts::{reads, sure};
use std::alloc::{AllocError, Global};
use std::process::Abort;
use ucq_lexer::{Kind, LexFault, Token, tokens};

/// The kinds and places of the tokens.
fn shown(alloc: Global, tokens: &[Token]) -> Result<String, AllocError> {
    let mut line = String::new(alloc);
    for token in tokens {
        write!(line, "{:?} {} {};", token.kind, token.start, token.end)?;
    }
    Ok(line)
}

/// The kinds and places of the tokens, or the bad byte, as a line.
fn line_of(rt: &impl Abort, alloc: Global, text: &str) -> String {
    assert!(rt; text.len() <= 1_000);
    match tokens(alloc, text.as_bytes()) {
        Ok(tokens) => sure(rt, shown(alloc, tokens.as_slice())),
        Err(LexFault::BadByte { at }) => sure(rt, format!(in alloc; "bad {at}")),
        Err(LexFault::Memory) => panic!(rt; "no memory"),
    }
}

/// Asserts of each text what its line is.
fn assert_lines(rt: &impl Abort, alloc: Global, rows: &[(&str, &str)]) {
    for (text, wanted) in rows {
        reads(rt, line_of(rt, alloc, text).as_str(), wanted, text);
    }
}

/// Texts, and their tokens.
const TOKENS: [(&str, &str); 12] = [
    ("", ""),
    (" \t\r\n% all of it", ""),
    ("a:-B", "Identifier 0 1;If 1 3;Variable 3 4;"),
    ("a:b a:_ :b-", "Prefixed 0 3;Prefixed 4 7;Prefixed 8 11;"),
    ("a: .", "Prefix 0 2;Dot 3 4;"),
    ("ex:", "Prefix 0 3;"),
    (
        "p(X,-05).",
        "Identifier 0 1;Open 1 2;Variable 2 3;Comma 3 4;Integer 4 7;Close 7 8;Dot 8 9;",
    ),
    ("1.5", "Integer 0 1;Dot 1 2;Integer 2 3;"),
    ("<http://a/b>", "Iri 0 12;"),
    (
        "\"a \\\" b\"@en-GB \"5\"^^a:b\"5\"^^<i>",
        "Text 0 14;Text 15 23;Text 23 31;",
    ),
    (
        "[a label] @rules ?!",
        "Label 0 9;Directive 10 16;Question 17 18;Bang 18 19;",
    ),
    ("a%b\nc", "Identifier 0 1;Identifier 4 5;"),
];

#[test]
fn each_token_is_the_longest_of_its_place(rt: HostRuntime) {
    assert_lines(&rt, rt.alloc(), &TOKENS);
}

/// Texts, and the first bad byte of each that has one.
const BAD_BYTES: [(&str, &str); 10] = [
    ("a &", "bad 2"),
    ("X = Y", "bad 2"),
    ("p(+)", "bad 2"),
    ("<a b>", "bad 0"),
    ("a \"open", "bad 2"),
    ("[open\n]", "bad 0"),
    ("\"5\"^b", "bad 3"),
    ("@ a", "bad 0"),
    ("a:-:", "Identifier 0 1;If 1 3;Prefix 3 4;"),
    ("caf\u{e9}", "bad 3"),
];

#[test]
fn the_first_bad_byte_is_told(rt: HostRuntime) {
    assert_lines(&rt, rt.alloc(), &BAD_BYTES);
}
