//! The parts of what is asked, each solved and then printed: the sections of all queries, and what is said of rules.
ghost use Rattle.std.specs.Prelude.{◌≡◌, ◌≤◌, ◌<◌, ◌↔◌, All, List, IfOk, IsTrue, Some, length, slice_get, vec_len};
ghost use Rattle.std.specs.List.{remove};
ghost use Rattle.ucq_terms.specs.declared.TheConstants.{QUERIES, RULES};
ghost use Rattle.ucq_terms.specs.Syntax.{Atom as AtomValue, Problem as ProblemValue, Rule as RuleValue};
ghost use Rattle.ucq_terms.specs.Rewriting.{rule_at};
ghost use Rattle.ucq_chase.specs.Names.{IsHeldProblem, IsHeldRule};
ghost use Rattle.ucq_outside.specs.Taken.{change_of};
ghost use Rattle.ucq_reader.specs.declared.input.Asked.{Asked as AskedValue};
ghost use Rattle.ucq_run.specs.Parts.{Part as PartValue, header_of, judged_of};
ghost use Rattle.ucq_run.specs.Printed.{PrintsFor, PrintsParts};
ghost use Rattle.ucq_run.specs.inner.Request.{AreHeldIn, AreWithinLimits, AsksAbout, BringsBack, IsWithinLimits, part_count as count_of_parts, parts_asked, parts_for, question_for, question_in, section_with};
ghost use Rattle.ucq_run.specs.inner.Solved.{IsSolved};

use crate::judged::{print_judged, print_skipped};
use crate::outcome::Outcome;
use crate::parts::{ended, print_section};
use crate::request::{Request, Shared};
use crate::solving::{Solved, solve_alone, solve_by_crew, store_by_crew, store_of};
use std::alloc::Global;
use std::sync::Wait;
use std::thread::Threads;
use ucq_outside::{Gate, Sink};
use ucq_print::section_line;
use ucq_reader::Asked;
use ucq_terms::{NoMemory, Problem, Rule};
use ucq_within::rule_queries;
use ucq_words::Mode;

/// The header of the query of this number: nothing where it is the one query.
fn header(alloc: Global, alone: bool, number: u32, asked: &Asked) -> Result<Vec<u8>, NoMemory>
    ensures { (all : List AskedValue) →
        IsTrue alone ↔ (length all ≡ 1) →
        IfOk result (λ line. line.items ≡ header_of all number asked.now) }
{
    if alone {
        return Ok(Vec::new(alloc));
    }
    match &asked.label {
        Some(label) => section_line(alloc, number, Some(label.text())),
        None => section_line(alloc, number, None),
    }
}

/// Prints what was solved of the problem of the query of the number behind the header.
fn print_solved<K: Sink>(
    alloc: Global,
    header: &[u8],
    shared: &Shared,
    solved: Result<Solved<'_>, NoMemory>,
    queries: &[Asked],
    number: u32,
    out: &mut K,
) -> Outcome
    requires within { IsWithinLimits shared.now }
    requires few { length queries.now ≤ QUERIES }
    requires held { IfOk solved (λ s. IsHeldProblem (length shared.now.names) s.store.problem) }
    requires solved { IfOk solved (λ s. IsSolved shared.now s.store.problem s) }
    ensures prints { (problem : ProblemValue) (facts : List AtomValue) →
        IfOk solved.entry (λ s. s.store.problem ≡ problem) →
        AsksAbout shared.now facts →
        PrintsFor
        (section_with shared.now.mode header.now (question_in shared.now problem facts) number
        queries.now)
        (change_of (K.taken out.old) (K.taken out.new) (K.faults out.old) (K.faults out.new))
        result }
    ensures later { K.faults out.old ≤ K.faults out.new }
{
    match solved {
        Ok(solved) => print_section(alloc, header, shared, &solved, queries, number, out),
        Err(NoMemory) => Outcome::NoMemory,
    }
}

/// How many parts there are: one for each query, and with containment one for each rule.
fn part_count(mode: Mode, queries: &[Asked], rules: &[Rule]) -> u32
    requires queries { length queries.now ≤ QUERIES }
    requires rules { length rules.now ≤ RULES }
    ensures { result ≡ count_of_parts mode queries.now rules.now }
{
    match mode {
        Mode::Plain => queries.len() as u32,
        Mode::Within => (queries.len() + rules.len()) as u32,
    }
}

/// Solves the query of the number under the rules on one thread, and prints its section. The rules come back.
fn print_query_alone<K: Sink>(
    alloc: Global,
    shared: &Shared,
    rules: Vec<Rule>,
    queries: &[Asked],
    number: u32,
    out: &mut K,
) -> (Outcome, Vec<Rule>)
    requires within { IsWithinLimits shared.now }
    requires number { number < length queries.now }
    requires held { AreHeldIn (length shared.now.names) rules.items queries.now }
    ensures prints { (asked : AskedValue) (facts : List AtomValue) →
        slice_get queries.now number ≡ Some asked →
        AsksAbout shared.now facts →
        PrintsFor
        (section_with shared.now.mode (header_of queries.now number asked)
        (question_for shared.now rules.items facts asked.query) number queries.now)
        (change_of (K.taken out.old) (K.taken out.new) (K.faults out.old) (K.faults out.new))
        result.0 }
    ensures rules { BringsBack result.0 rules.items result.1.items }
    ensures later { K.faults out.old ≤ K.faults out.new }
{
    let asked = &queries[number as usize];
    let header = match header(alloc, queries.len() == 1, number, asked) {
        Ok(header) => header,
        Err(NoMemory) => return (Outcome::NoMemory, rules),
    };
    let query = match asked.query.copy() {
        Ok(query) => query,
        Err(NoMemory) => return (Outcome::NoMemory, rules),
    };
    let problem = Problem::new(rules, query);
    let solved = solve_alone(alloc, shared, &problem);
    let outcome = print_solved(
        alloc,
        header.as_slice(),
        shared,
        solved,
        queries,
        number,
        out,
    );
    (outcome, problem.into_parts().0)
}

/// Judges the rule of the number by the others on one thread, and prints what is said of it. The others come back.
fn judge_alone<K: Sink>(
    alloc: Global,
    shared: &Shared,
    rule: &Rule,
    others: Vec<Rule>,
    number: u32,
    out: &mut K,
) -> (Outcome, Vec<Rule>)
    requires within { IsWithinLimits shared.now }
    requires few { vec_len others ≤ RULES }
    requires held { IsHeldRule (length shared.now.names) rule.now }
    requires held_others { All (IsHeldRule (length shared.now.names)) others.items }
    ensures prints { (rules : List RuleValue) →
        rule.now ≡ rule_at rules number →
        others.items ≡ remove rules number →
        PrintsFor
        (judged_of shared.now.names rules shared.now.budget (number, rule_at rules number))
        (change_of (K.taken out.old) (K.taken out.new) (K.faults out.old) (K.faults out.new))
        result.0 }
    ensures others { result.1.items ≡ others.items }
    ensures later { K.faults out.old ≤ K.faults out.new }
{
    match rule_queries(alloc, rule) {
        Ok(Some((head, body))) => {
            let problem = Problem::new(others, head);
            let store = store_of(alloc, &problem, shared.budget);
            let outcome = print_judged(alloc, shared, number, store, &body, out);
            (outcome, problem.into_parts().0)
        }
        Ok(None) => (print_skipped(alloc, shared, number, out), others),
        Err(NoMemory) => (Outcome::NoMemory, others),
    }
}

/// Takes the rule of the number out, judges it by the others on one thread, and puts it back.
fn print_rule_alone<K: Sink>(
    alloc: Global,
    shared: &Shared,
    mut rules: Vec<Rule>,
    number: u32,
    out: &mut K,
) -> (Outcome, Vec<Rule>)
    requires within { IsWithinLimits shared.now }
    requires number { number < vec_len rules }
    requires few { vec_len rules ≤ RULES }
    requires held { All (IsHeldRule (length shared.now.names)) rules.items }
    ensures prints { PrintsFor
        (judged_of shared.now.names rules.items shared.now.budget
        (number, rule_at rules.items number))
        (change_of (K.taken out.old) (K.taken out.new) (K.faults out.old) (K.faults out.new))
        result.0 }
    ensures rules { BringsBack result.0 rules.items result.1.items }
    ensures later { K.faults out.old ≤ K.faults out.new }
{
    let rule = rules.remove(number as usize);
    let (outcome, mut back) = judge_alone(alloc, shared, &rule, rules, number, out);
    match back.insert(number as usize, rule) {
        Ok(()) => (outcome, back),
        Err(_) => (Outcome::NoMemory, back),
    }
}

/// Prints the part of the number on one thread: the section of a query, or what is said of a rule. The rules come back.
fn print_part_alone<K: Sink>(
    alloc: Global,
    shared: &Shared,
    rules: Vec<Rule>,
    queries: &[Asked],
    number: u32,
    out: &mut K,
) -> (Outcome, Vec<Rule>)
    requires within { IsWithinLimits shared.now }
    requires held { AreHeldIn (length shared.now.names) rules.items queries.now }
    requires number { number < count_of_parts shared.now.mode queries.now rules.items }
    ensures prints { (part : PartValue) (facts : List AtomValue) →
        slice_get (parts_for shared.now rules.items queries.now facts) number ≡ Some part →
        AsksAbout shared.now facts →
        PrintsFor part
        (change_of (K.taken out.old) (K.taken out.new) (K.faults out.old) (K.faults out.new))
        result.0 }
    ensures rules { BringsBack result.0 rules.items result.1.items }
    ensures later { K.faults out.old ≤ K.faults out.new }
{
    let count = queries.len() as u32;
    if number < count {
        print_query_alone(alloc, shared, rules, queries, number, out)
    } else {
        print_rule_alone(alloc, shared, rules, number - count, out)
    }
}

/// Prints the parts of these queries and rules on one thread.
fn print_all_alone<K: Sink>(
    alloc: Global,
    shared: &Shared,
    mut rules: Vec<Rule>,
    queries: &[Asked],
    out: &mut K,
) -> Outcome
    requires within { IsWithinLimits shared.now }
    requires held { AreHeldIn (length shared.now.names) rules.items queries.now }
    ensures prints { (facts : List AtomValue) →
        AsksAbout shared.now facts →
        PrintsParts (parts_for shared.now rules.items queries.now facts)
        (change_of (K.taken out.old) (K.taken out.new) (K.faults out.old) (K.faults out.new))
        result }
    ensures later { K.faults out.old ≤ K.faults out.new }
{
    let count = part_count(shared.mode, queries, rules.as_slice());
    let mut cut = false;
    for number in 0..count {
        let (outcome, back) = print_part_alone(alloc, shared, rules, queries, number, out);
        match outcome {
            Outcome::Finished => {}
            Outcome::Cut => cut = true,
            other => return other,
        }
        rules = back;
    }
    ended(cut)
}

/// Prints all parts of what is asked, each as soon as it is solved, which is done on one thread. A cut part ends nothing.
pub fn print_alone<K: Sink>(alloc: Global, request: Request, out: &mut K) -> Outcome
    requires within { AreWithinLimits request }
    ensures prints { (facts : List AtomValue) →
        AsksAbout request.shared facts →
        PrintsParts (parts_asked request facts)
        (change_of (K.taken out.old) (K.taken out.new) (K.faults out.old) (K.faults out.new))
        result }
    ensures later { K.faults out.old ≤ K.faults out.new }
{
    let Request {
        shared,
        rules,
        queries,
    } = request;
    print_all_alone(alloc, &shared, rules, queries.as_slice(), out)
}

/// Solves the query of the number under the rules by a crew, and prints its section. The rules come back.
fn print_query_by_crew<G: Gate + Sync, R: Threads + Wait + Sync, K: Sink>(
    rt: &R,
    alloc: Global,
    gate: &G,
    shared: &Shared,
    rules: Vec<Rule>,
    queries: &[Asked],
    number: u32,
    out: &mut K,
) -> (Outcome, Vec<Rule>)
    requires within { IsWithinLimits shared.now }
    requires number { number < length queries.now }
    requires held { AreHeldIn (length shared.now.names) rules.items queries.now }
    ensures prints { (asked : AskedValue) (facts : List AtomValue) →
        slice_get queries.now number ≡ Some asked →
        AsksAbout shared.now facts →
        PrintsFor
        (section_with shared.now.mode (header_of queries.now number asked)
        (question_for shared.now rules.items facts asked.query) number queries.now)
        (change_of (K.taken out.old) (K.taken out.new) (K.faults out.old) (K.faults out.new))
        result.0 }
    ensures rules { BringsBack result.0 rules.items result.1.items }
    ensures later { K.faults out.old ≤ K.faults out.new }
{
    let asked = &queries[number as usize];
    let header = match header(alloc, queries.len() == 1, number, asked) {
        Ok(header) => header,
        Err(NoMemory) => return (Outcome::NoMemory, rules),
    };
    let query = match asked.query.copy() {
        Ok(query) => query,
        Err(NoMemory) => return (Outcome::NoMemory, rules),
    };
    let problem = Problem::new(rules, query);
    let solved = solve_by_crew(rt, alloc, shared, &problem, gate);
    let outcome = print_solved(
        alloc,
        header.as_slice(),
        shared,
        solved,
        queries,
        number,
        out,
    );
    (outcome, problem.into_parts().0)
}

/// Judges the rule of the number by the others by a crew, and prints what is said of it. The others come back.
fn judge_by_crew<G: Gate + Sync, R: Threads + Wait + Sync, K: Sink>(
    rt: &R,
    alloc: Global,
    gate: &G,
    shared: &Shared,
    rule: &Rule,
    others: Vec<Rule>,
    number: u32,
    out: &mut K,
) -> (Outcome, Vec<Rule>)
    requires within { IsWithinLimits shared.now }
    requires few { vec_len others ≤ RULES }
    requires held { IsHeldRule (length shared.now.names) rule.now }
    requires held_others { All (IsHeldRule (length shared.now.names)) others.items }
    ensures prints { (rules : List RuleValue) →
        rule.now ≡ rule_at rules number →
        others.items ≡ remove rules number →
        PrintsFor
        (judged_of shared.now.names rules shared.now.budget (number, rule_at rules number))
        (change_of (K.taken out.old) (K.taken out.new) (K.faults out.old) (K.faults out.new))
        result.0 }
    ensures others { result.1.items ≡ others.items }
    ensures later { K.faults out.old ≤ K.faults out.new }
{
    match rule_queries(alloc, rule) {
        Ok(Some((head, body))) => {
            let problem = Problem::new(others, head);
            let store = store_by_crew(rt, alloc, shared, &problem, gate);
            let outcome = print_judged(alloc, shared, number, store, &body, out);
            (outcome, problem.into_parts().0)
        }
        Ok(None) => (print_skipped(alloc, shared, number, out), others),
        Err(NoMemory) => (Outcome::NoMemory, others),
    }
}

/// Takes the rule of the number out, judges it by the others by a crew, and puts it back.
fn print_rule_by_crew<G: Gate + Sync, R: Threads + Wait + Sync, K: Sink>(
    rt: &R,
    alloc: Global,
    gate: &G,
    shared: &Shared,
    mut rules: Vec<Rule>,
    number: u32,
    out: &mut K,
) -> (Outcome, Vec<Rule>)
    requires within { IsWithinLimits shared.now }
    requires number { number < vec_len rules }
    requires few { vec_len rules ≤ RULES }
    requires held { All (IsHeldRule (length shared.now.names)) rules.items }
    ensures prints { PrintsFor
        (judged_of shared.now.names rules.items shared.now.budget
        (number, rule_at rules.items number))
        (change_of (K.taken out.old) (K.taken out.new) (K.faults out.old) (K.faults out.new))
        result.0 }
    ensures rules { BringsBack result.0 rules.items result.1.items }
    ensures later { K.faults out.old ≤ K.faults out.new }
{
    let rule = rules.remove(number as usize);
    let (outcome, mut back) = judge_by_crew(rt, alloc, gate, shared, &rule, rules, number, out);
    match back.insert(number as usize, rule) {
        Ok(()) => (outcome, back),
        Err(_) => (Outcome::NoMemory, back),
    }
}

/// Prints the part of the number by a crew: the section of a query, or what is said of a rule. The rules come back.
fn print_part_by_crew<G: Gate + Sync, R: Threads + Wait + Sync, K: Sink>(
    rt: &R,
    alloc: Global,
    gate: &G,
    shared: &Shared,
    rules: Vec<Rule>,
    queries: &[Asked],
    number: u32,
    out: &mut K,
) -> (Outcome, Vec<Rule>)
    requires within { IsWithinLimits shared.now }
    requires held { AreHeldIn (length shared.now.names) rules.items queries.now }
    requires number { number < count_of_parts shared.now.mode queries.now rules.items }
    ensures prints { (part : PartValue) (facts : List AtomValue) →
        slice_get (parts_for shared.now rules.items queries.now facts) number ≡ Some part →
        AsksAbout shared.now facts →
        PrintsFor part
        (change_of (K.taken out.old) (K.taken out.new) (K.faults out.old) (K.faults out.new))
        result.0 }
    ensures rules { BringsBack result.0 rules.items result.1.items }
    ensures later { K.faults out.old ≤ K.faults out.new }
{
    let count = queries.len() as u32;
    if number < count {
        print_query_by_crew(rt, alloc, gate, shared, rules, queries, number, out)
    } else {
        print_rule_by_crew(rt, alloc, gate, shared, rules, number - count, out)
    }
}

/// Prints the parts of these queries and rules by a crew.
fn print_all_by_crew<G: Gate + Sync, R: Threads + Wait + Sync, K: Sink>(
    rt: &R,
    alloc: Global,
    gate: &G,
    shared: &Shared,
    mut rules: Vec<Rule>,
    queries: &[Asked],
    out: &mut K,
) -> Outcome
    requires within { IsWithinLimits shared.now }
    requires held { AreHeldIn (length shared.now.names) rules.items queries.now }
    ensures prints { (facts : List AtomValue) →
        AsksAbout shared.now facts →
        PrintsParts (parts_for shared.now rules.items queries.now facts)
        (change_of (K.taken out.old) (K.taken out.new) (K.faults out.old) (K.faults out.new))
        result }
    ensures later { K.faults out.old ≤ K.faults out.new }
{
    let count = part_count(shared.mode, queries, rules.as_slice());
    let mut cut = false;
    for number in 0..count {
        let (outcome, back) = print_part_by_crew(
            rt, alloc, gate, shared, rules, queries, number, out,
        );
        match outcome {
            Outcome::Finished => {}
            Outcome::Cut => cut = true,
            other => return other,
        }
        rules = back;
    }
    ended(cut)
}

/// The same, where a crew solves. It may wait.
pub fn print_by_crew<G: Gate + Sync, R: Threads + Wait + Sync, K: Sink>(
    rt: &R,
    alloc: Global,
    gate: &G,
    request: Request,
    out: &mut K,
) -> Outcome
    requires within { AreWithinLimits request }
    ensures prints { (facts : List AtomValue) →
        AsksAbout request.shared facts →
        PrintsParts (parts_asked request facts)
        (change_of (K.taken out.old) (K.taken out.new) (K.faults out.old) (K.faults out.new))
        result }
    ensures later { K.faults out.old ≤ K.faults out.new }
{
    let Request {
        shared,
        rules,
        queries,
    } = request;
    print_all_by_crew(rt, alloc, gate, &shared, rules, queries.as_slice(), out)
}
