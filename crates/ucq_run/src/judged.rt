//! What is said of a rule: whether the others imply it.
ghost use Rattle.std.specs.Prelude.{◌≡◌, ◌<◌, ◌≤◌, ◌++◌, ◌⊎◌, ℕ, List, IfOk, length};
ghost use Rattle.std.specs.List.{remove};
ghost use Rattle.ucq_terms.specs.Syntax.{Rule as RuleValue};
ghost use Rattle.ucq_terms.specs.Rewriting.{rule_at};
ghost use Rattle.ucq_chase.specs.Names.{IsHeldProblem};
ghost use Rattle.ucq_store.specs.Store.{IsCut, IsFinished};
ghost use Rattle.ucq_outside.specs.Taken.{change_of};
ghost use Rattle.ucq_print.specs.Texts.{cut_lines, lines_text};
ghost use Rattle.ucq_print.specs.Compared.{rule_line as rule_line_of};
ghost use Rattle.ucq_print.specs.declared.compared.Judged.TheVariants as told;
ghost use Rattle.ucq_within.specs.Containment.{TellsWithin};
ghost use Rattle.ucq_within.specs.Needless.{asked_of, frontier_of};
ghost use Rattle.ucq_run.specs.Compared.{HasSmallFrontier};
ghost use Rattle.ucq_run.specs.Parts.{judged_of};
ghost use Rattle.ucq_run.specs.Printed.{PrintsFor};
ghost use Rattle.ucq_run.specs.inner.Comparing.{is_open as is_open_in, judged_text};
ghost use Rattle.ucq_run.specs.inner.Reading.{IsWritten};
ghost use Rattle.ucq_run.specs.inner.Request.{problem_with};

use crate::outcome::Outcome;
use crate::parts::{ended, written};
use crate::request::Shared;
use crate::texts::CutText;
use crate::writing::{Unwritten, write_headed, write_made};
use std::alloc::Global;
use ucq_hom::HomSpace;
use ucq_outside::Sink;
use ucq_print::{Judged, rule_line};
use ucq_store::Store;
use ucq_store::laws::{cut_listing, enough_budget};
use ucq_terms::{NoMemory, Query};
use ucq_within::Within;
use ucq_within::containment::within;
use ucq_within::laws::follows_is_containment;

/// Whether the query is contained in that of the store.
fn contained(alloc: Global, store: &Store, query: &Query) -> Result<Within, NoMemory>
    requires { IsFinished store.now ⊎ IsCut store.now }
    ensures { IfOk result (TellsWithin store.now query.now) }
{
    let mut space = HomSpace::new(alloc)?;
    Ok(within(&mut space, store, query))
}

/// Writes that nothing is told of the rule, and the text of the cut store.
fn write_open<K: Sink>(
    alloc: Global,
    shared: &Shared,
    number: u32,
    store: &Store,
    out: &mut K,
) -> Result<(), Unwritten>
    ensures written { IsWritten
        (change_of (K.taken out.old) (K.taken out.new) (K.faults out.old) (K.faults out.new))
        (rule_line_of number told.Open ++ lines_text (cut_lines shared.now.names store.now)) result }
    ensures later { K.faults out.old ≤ K.faults out.new }
{
    let line = match rule_line(alloc, number, Judged::Open) {
        Ok(line) => line,
        Err(NoMemory) => return Err(Unwritten::Memory),
    };
    let text = CutText {
        names: &shared.names,
        rows: store,
    };
    write_headed(alloc, out, line.as_slice(), &text)
}

/// Whether nothing is told.
fn is_open(answer: Within) -> bool
    ensures { result ≡ is_open_in answer }
{
    match answer {
        Within::Open => true,
        Within::Yes { .. } | Within::No => false,
    }
}

/// Writes what is told of the rule by the store of its head, and where this is nothing, the text of the cut.
fn write_judged<K: Sink>(
    alloc: Global,
    shared: &Shared,
    number: u32,
    answer: Within,
    store: &Store,
    out: &mut K,
) -> Result<(), Unwritten>
    ensures written { IsWritten
        (change_of (K.taken out.old) (K.taken out.new) (K.faults out.old) (K.faults out.new))
        (judged_text shared.now.names number answer store.now) result }
    ensures later { K.faults out.old ≤ K.faults out.new }
{
    match answer {
        Within::Yes { .. } => write_made(out, rule_line(alloc, number, Judged::Follows)),
        Within::No => write_made(out, rule_line(alloc, number, Judged::Needed)),
        Within::Open => write_open(alloc, shared, number, store, out),
    }
}

/// Prints what the store of the rule's head, under the others, tells of it, which is asked with the body's query.
pub fn print_judged<K: Sink>(
    alloc: Global,
    shared: &Shared,
    number: u32,
    store: Result<Store<'_>, NoMemory>,
    body: &Query,
    out: &mut K,
) -> Outcome
    requires ended { IfOk store (λ s.
        (IsFinished s ⊎ IsCut s) × (s.budget ≡ shared.now.budget)) }
    requires held { IfOk store (λ s. IsHeldProblem (length shared.now.names) s.problem) }
    ensures prints { (rules : List RuleValue) →
        HasSmallFrontier (rule_at rules number) →
        IfOk store.entry (λ s. s.problem ≡ problem_with (remove rules number)
        (asked_of (rule_at rules number) (rule_at rules number).heads)) →
        body.now ≡ asked_of (rule_at rules number) (rule_at rules number).body →
        PrintsFor
        (judged_of shared.now.names rules shared.now.budget (number, rule_at rules number))
        (change_of (K.taken out.old) (K.taken out.new) (K.faults out.old) (K.faults out.new))
        result }
    ensures later { K.faults out.old ≤ K.faults out.new }
{
    cut_listing();
    enough_budget();
    follows_is_containment();
    let store = match store {
        Ok(store) => store,
        Err(NoMemory) => return Outcome::NoMemory,
    };
    // A reader tells that the store is lawful.
    let _ = store.cut();
    let answer = match contained(alloc, &store, body) {
        Ok(answer) => answer,
        Err(NoMemory) => return Outcome::NoMemory,
    };
    let wrote = write_judged(alloc, shared, number, answer, &store, out);
    written(wrote, ended(is_open(answer)))
}

/// Prints that the rule's frontier is too wide to ask.
pub fn print_skipped<K: Sink>(alloc: Global, shared: &Shared, number: u32, out: &mut K) -> Outcome
    ensures prints { (rules : List RuleValue) →
        16 < length (frontier_of (rule_at rules number)) →
        PrintsFor
        (judged_of shared.now.names rules shared.now.budget (number, rule_at rules number))
        (change_of (K.taken out.old) (K.taken out.new) (K.faults out.old) (K.faults out.new))
        result }
    ensures later { K.faults out.old ≤ K.faults out.new }
{
    let wrote = write_made(out, rule_line(alloc, number, Judged::Skipped));
    written(wrote, Outcome::Finished)
}
