//! A law of logs, the contract of a function that changes nothing.
ghost use Rattle.std.specs.Prelude.{◌≡◌};
ghost use Rattle.ucq_log.specs.Log.{IsEntryOf};

use crate::{Entry, Log};

/// Entries of one place of one log have one row and one query, whoever got them, and when.
pub fn entries_agree(log: &Log, one: &Entry, other: &Entry)
    requires one { IsEntryOf log.now one.now }
    requires other { IsEntryOf log.now other.now }
    requires place { one.now.place ≡ other.now.place }
    ensures row { one.now.row ≡ other.now.row }
    ensures query { one.now.query ≡ other.now.query }
{
    log.vec.agrees(&one.pushed, &other.pushed);
}
