//! What rules tell of their variables.
use crate::asserts::{equal, reads, ruled};
use crate::shown::shown_rule;
use std::process::Abort;
use ucq_terms::Rule;

#[test]
fn rule_is_numbered_from_0_heads_first(rt: HostRuntime) {
    let alloc = rt.alloc();
    let text = shown_rule(&rt, alloc, &ruled(&rt, alloc, "qZX <- pXY"));
    reads(&rt, text.as_slice(), " qAB <- pBC");
}

/// Asserts of each variable whether it is existential, and whether it is a frontier variable.
fn assert_kinds(rt: &impl Abort, rule: &Rule, rows: &[(u32, bool, bool)]) {
    for (variable, existential, frontier) in rows {
        let found = (rule.is_existential(*variable), rule.is_frontier(*variable));
        equal(rt, found, (*existential, *frontier), "variable");
    }
}

#[test]
fn rule_tells_existential_and_frontier_variables(rt: HostRuntime) {
    let rule = ruled(&rt, rt.alloc(), "qZX <- pXY");
    assert_kinds(
        &rt,
        &rule,
        &[(0, true, false), (1, false, true), (2, false, false)],
    );
}
