//! What the finished text says of the live rows of a rewriting.
ghost use Rattle.std.specs.Prelude.{◌≡◌, ◌≤◌, length, IfOk};
ghost use Rattle.ucq_terms.specs.declared.TheConstants.{ROWS};
ghost use Rattle.ucq_antichain.specs.Rows.{live_queries};
ghost use Rattle.ucq_print.specs.Texts.{count_line};

use crate::answers::number_line;
use crate::rows::Rows;
use std::alloc::Global;
use ucq_terms::NoMemory;

/// How many of the rows are live.
pub fn live_count<R: Rows>(rows: &R) -> u32
    ensures live { result ≡ length (live_queries (R.value rows.now).rows) }
    ensures few { result ≤ ROWS }
{
    let mut count: u32 = 0;
    for row in 0..rows.count() {
        if rows.is_live_at(row) {
            count += 1;
        }
    }
    count
}

/// The line that tells how many queries there are. The only error is want of memory.
pub fn query_count_line(alloc: Global, count: u32) -> Result<Vec<u8>, NoMemory>
    ensures { IfOk result (λ line. line.items ≡ count_line count) }
{
    number_line(alloc, b"% queries ", u64::from(count))
}
