//! Assertions, and what a test can't go on without. Each is proved once.
//!
//! A test that finds no memory, or can't make what it compares, ends here, so that what calls these has no errors to give on.
ghost use Rattle.std.specs.Prelude.{◌≡◌, true, Ok};

use std::fmt::Debug;
use std::process::Abort;

/// Asserts that the bytes that are found in the row are the ones that are wanted.
pub(crate) fn reads(rt: &impl Abort, found: &[u8], wanted: &[u8], row: &str) {
    assert_eq!(rt; found, wanted, "{row}");
}

/// Asserts that it holds.
pub(crate) fn holds(rt: &impl Abort, found: bool)
    ensures { found ≡ true }
{
    assert!(rt; found);
}

/// What was to be made.
pub(crate) fn sure<T: Drop, E: Debug + Drop>(rt: &impl Abort, made: Result<T, E>) -> T
    ensures { made ≡ Ok result }
{
    match made {
        Ok(value) => value,
        Err(fault) => panic!(rt; "{fault:?}"),
    }
}
