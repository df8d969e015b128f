//! Assertions, and what a test can't go on without. Each is proved once.
//!
//! A test that finds no memory, or can't make what it looks at, ends here, so that what calls these has no errors to give on.
ghost use Rattle.std.specs.Prelude.{◌≡◌, true, Ok};
ghost use Rattle.ucq_terms.specs.Query.{IsStored};

use std::alloc::Global;
use std::fmt::Debug;
use std::process::Abort;
use ucq_hom::HomSpace;
use ucq_terms::Query;
use ucq_worked::query;

/// Asserts that what is found in the row of the text is what is wanted.
pub(crate) fn equal<T: PartialEq + Debug + Drop>(rt: &impl Abort, found: T, wanted: T, text: &str) {
    assert_eq!(rt; found, wanted, "{text}");
}

/// Asserts that it holds.
pub(crate) fn holds(rt: &impl Abort, found: bool)
    ensures { found ≡ true }
{
    assert!(rt; found);
}

/// What was to be made.
pub(crate) fn sure<T: Drop, E: Debug + Drop>(rt: &impl Abort, made: Result<T, E>) -> T
    ensures { made ≡ Ok result }
{
    match made {
        Ok(value) => value,
        Err(fault) => panic!(rt; "{fault:?}"),
    }
}

/// The query of the text.
pub(crate) fn asked(rt: &impl Abort, alloc: Global, text: &str) -> Query
    ensures { IsStored result }
{
    match query(alloc, text) {
        Ok(query) => query,
        Err(fault) => panic!(rt; "{fault:?}"),
    }
}

/// Room for searches.
pub(crate) fn room(rt: &impl Abort, alloc: Global) -> HomSpace {
    sure(rt, HomSpace::new(alloc))
}
