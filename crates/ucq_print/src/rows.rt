//! The rows of a rewriting, as they are printed.
ghost use Rattle.std.specs.Prelude.{◌≡◌, ◌<◌, ◌≤◌, length, MatchOption, Some, None};
ghost use Rattle.ucq_terms.specs.declared.TheConstants.{ROWS};
ghost use Rattle.ucq_antichain.specs.Rows.{query_at, row_at};
ghost use Rattle.ucq_print.specs.Rows.{RowsValue};

use ucq_store::{Cut, Store};
use ucq_terms::Query;

/// The rows of a rewriting, each live or dead, with its budget, and its cut, if it is cut.
pub trait Rows {
    /// What is printed of it.
    ghost value: { Self → RowsValue };

    /// How many rows there are, live and dead. No budget is above 65,536.
    fn count(&self) -> u32
        ensures rows { result ≡ length (value self.now).rows }
        ensures few { result ≤ ROWS };

    /// The query of a row.
    fn query_at(&self, row: u32) -> &Query
        requires { row < length (value self.now).rows }
        ensures { result.now ≡ query_at (value self.now).rows row };

    /// Whether a row is live.
    fn is_live_at(&self, row: u32) -> bool
        requires { row < length (value self.now).rows }
        ensures { result ≡ (row_at (value self.now).rows row).live };

    /// The most rows that there may be.
    fn limit(&self) -> u32
        ensures { result ≡ (value self.now).budget };

    /// The cut, if it is cut.
    fn why_cut(&self) -> Option<&Cut>
        ensures { MatchOption result ((value self.now).cut ≡ None) (λ cut.
            (value self.now).cut ≡ Some cut.now) };
}

impl<'p> Rows for Store<'p> {
    ghost value = { λ s. record { budget = s.budget; rows = s.rows; cut = s.cut } };

    fn count(&self) -> u32 {
        self.rows().min(self.budget())
    }

    fn query_at(&self, row: u32) -> &Query {
        self.query_of(row)
    }

    fn is_live_at(&self, row: u32) -> bool {
        self.is_live(row)
    }

    fn limit(&self) -> u32 {
        self.budget()
    }

    fn why_cut(&self) -> Option<&Cut> {
        self.cut()
    }
}
