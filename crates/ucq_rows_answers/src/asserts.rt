//! Assertions, and what a test can't go on without. Each is proved once.
//!
//! A test that finds no memory, or can't make what it compares, ends here, so that what calls these has no errors to give on.
ghost use Rattle.std.specs.Prelude.{◌≡◌, true, Ok};

use std::fmt::Debug;
use std::process::Abort;

/// Asserts that what is found in the row of the text is what is wanted.
pub(crate) fn equal<T: PartialEq + Debug + Drop>(rt: &impl Abort, found: T, wanted: T, text: &str) {
    assert_eq!(rt; found, wanted, "{text}");
}

/// Asserts that the text that is found in the row is the one that is wanted.
pub(crate) fn reads(rt: &impl Abort, found: &[u8], wanted: &str, row: &str) {
    assert_eq!(rt; found, wanted.as_bytes(), "{row}");
}

/// Asserts that it holds.
pub(crate) fn holds(rt: &impl Abort, found: bool)
    ensures { found ≡ true }
{
    assert!(rt; found);
}

/// What was to be made.
pub(crate) fn sure<T: Drop, E: Debug + Drop>(rt: &impl Abort, made: Result<T, E>) -> T
    ensures { made ≡ Ok result }
{
    match made {
        Ok(value) => value,
        Err(fault) => panic!(rt; "{fault:?}"),
    }
}
