//! Whether facts violate a constraint.
ghost use Rattle.std.specs.Prelude.{◌≡◌, ◌⊎◌, [], MatchOption};
ghost use Rattle.ucq_store.specs.Store.{IsCut, IsFinished};
ghost use Rattle.ucq_bans.specs.Verdicts.{IsFirstMapped, Judges, NoRowMaps};

use crate::Verdict;
use crate::bindings::Bindings;
use crate::images::maps;
use ucq_chase::sound_is_carried;
use ucq_facts::Facts;
use ucq_store::Store;
use ucq_store::laws::finished_is_exact;

/// Whether the facts violate the store's query, under its rules, as far as the rows tell. It takes no memory but the stack.
/// A map is searched for each row up to the first that maps into the facts, atom by atom by the index of the facts. The
/// worst case stays exponential in the number of atoms.
pub fn judge(store: &Store, facts: &Facts) -> Verdict
    requires ended { IsFinished store.now ⊎ IsCut store.now }
    requires boolean { store.now.problem.query.answers ≡ [] }
    ensures { Judges store.now facts.now result }
{
    sound_is_carried();
    finished_is_exact();
    // A reader tells that the store is lawful.
    let is_cut = store.cut().is_some();
    match first_mapped(store, facts) {
        Some(row) => Verdict::Violated { row },
        None if is_cut => Verdict::Open,
        None => Verdict::Consistent,
    }
}

/// The first row that maps into the facts.
fn first_mapped(store: &Store, facts: &Facts) -> Option<u32>
    requires { store.now.problem.query.answers ≡ [] }
    ensures { MatchOption result (NoRowMaps store.now facts.now) (λ row.
        IsFirstMapped store.now facts.now row) }
{
    let mut bindings = Bindings::new();
    for row in 0..store.rows() {
        if maps(&mut bindings, store.query_of(row), facts) {
            return Some(row);
        }
    }
    None
}
