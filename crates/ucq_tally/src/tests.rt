//! Counts of worked cases.
ghost use Rattle.std.specs.Prelude.{◌≤◌, ◌^◌, length};

use crate::counting::{rewritings, tally_of};
use std::alloc::Global;
use std::process::Abort;
use std::test::Fail;
use ucq_reader::{Input, ReadFault, read_files};
use ucq_terms::Problem;

/// What the file stands for.
fn read_one(alloc: Global, text: &[u8]) -> Result<Input, ReadFault>
    requires { length text.now ≤ 2 ^ 24 }
{
    let mut files = Vec::new(alloc);
    files.push(text.to_vec(alloc)?)?;
    read_files(alloc, files.as_slice())
}

/// The problem of a file.
fn problem_of(rt: &impl Abort, alloc: Global, text: &str) -> Result<Problem, Fail> {
    assert!(rt; text.len() <= 1_000);
    match read_one(alloc, text.as_bytes()) {
        Ok(Input { rules, queries, .. }) => {
            assert!(rt; rules.len() <= 4_096);
            match queries.into_iter().next() {
                Some(asked) => Ok(Problem::new(rules, asked.query)),
                None => panic!(rt; "no query"),
            }
        }
        Err(_) => panic!(rt; "refused"),
    }
}

#[test]
fn counts_each_aggregate_of_a_query_and_a_rule(rt: HostRuntime) -> Result<(), Fail> {
    let rows: [(&str, u64); 4] = [
        ("p(X,Y) :- s(X). ?(X,Z) :- p(X,A), p(Z,B).", 3),
        ("p(X,X) :- s(X). ? :- p(Y,Z), p(Z,Y).", 3),
        ("p(X,Y) :- s(X). ?(X,Z) :- p(X,A), p(Z,A).", 1),
        ("p(X,Y) :- s(X). ?(X) :- q(X).", 0),
    ];
    for (text, count) in rows {
        let problem = problem_of(&rt, rt.alloc(), text)?;
        assert!(rt; problem.rules().len() == 1);
        let found = rewritings(rt.alloc(), problem.query(), &problem.rules()[0])?;
        assert_eq!(rt; found, count, "{text}");
    }
    Ok(())
}

#[test]
fn counts_what_was_tried_of_each_row(rt: HostRuntime) -> Result<(), Fail> {
    let text = "p(X,Y) :- s(X). s(X) :- t(X). ?(X,Z) :- p(X,A), p(Z,B).";
    let problem = problem_of(&rt, rt.alloc(), text)?;
    let whole = tally_of(rt.alloc(), &problem, 9)?;
    assert_eq!(rt; (whole.rows, whole.rewritings), (9, 14));

    // One row for which there is room, and of which all rewritings were tried.
    let cut = tally_of(rt.alloc(), &problem, 1)?;
    assert_eq!(rt; (cut.rows, cut.rewritings), (1, 3));
    Ok(())
}
