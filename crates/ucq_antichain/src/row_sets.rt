//! Sets of rows, as the bits of words.
ghost use Rattle.std.specs.Prelude.{◌≡◌, ◌+◌, ◌*◌, ◌/◌, ◌%◌, ◌<◌, ◌≤◌, ℕ, length, slice_index, IfOk, true};
ghost use Rattle.std.specs.Int.{bit_at};
ghost use Rattle.ucq_antichain.specs.inner.Sets.{IsIn, Keeps};

use crate::bits::{both, with_bit};
use std::alloc::Global;
use std::marker::Model;
use ucq_terms::NoMemory;

// How many marks there are.
const MARKS: usize = 128;

/// A set of rows for each mark. Words of the same rows stand together, one for each mark.
#[derive(Drop)]
pub struct RowSets {
    width: usize,
    words: Vec<u64>,
}

impl Model for RowSets {
    ghost use Rattle.std.specs.Prelude.{◌≡◌, ◌*◌, ◌≤◌, length};
    ghost use Rattle.ucq_antichain.specs.inner.Sets.{Sets};

    ghost Value = { Sets };

    ghost view = { λ s. record { width = s.width; words = s.words.items } };

    ghost invariant = { λ s. (s.width ≤ 1024) × (length s.words.items ≡ 128 * s.width) };
}

// Where the word stands of the set of a mark.
fn place(mark: u32, word: usize) -> usize
    requires mark { mark < 128 }
    requires word { word < 67108864 }
    ensures { result ≡ 128 * word + mark }
{
    MARKS * word + mark as usize
}

impl RowSets {
    /// Empty sets with room for so many words of 64 rows.
    pub fn new(alloc: Global, width: usize) -> Result<RowSets, NoMemory>
        requires { width ≤ 1024 }
        ensures { IfOk result (λ s. s.width ≡ width) }
    {
        let words = vec![in alloc; 0; MARKS * width]?;
        Ok(RowSets { width, words })
    }

    // Adds a row to the set of a mark.
    fn insert(&mut self, mark: u32, row: u32)
        requires mark { mark < 128 }
        requires row { row / 64 < self.old.width }
        ensures has { IsIn self.new mark row }
        ensures keeps { Keeps self.old self.new }
    {
        let at = place(mark, row as usize / 64);
        self.words[at] = with_bit(self.words[at], row % 64);
    }

    /// Adds a row to the set of each of the marks.
    pub fn insert_all(&mut self, marks: &[u32], row: u32)
        requires marks { (k : ℕ) → k < length marks.now → slice_index marks.now k < 128 }
        requires row { row / 64 < self.old.width }
        ensures has { (k : ℕ) → k < length marks.now → IsIn self.new (slice_index marks.now k) row }
        ensures keeps { Keeps self.old self.new }
    {
        for mark in marks {
            self.insert(*mark, row);
        }
    }

    /// Of these rows of a word those that the sets of all these marks have.
    pub fn common(&self, marks: &[u32], word: usize, among: u64) -> u64
        requires marks { (k : ℕ) → k < length marks.now → slice_index marks.now k < 128 }
        requires word { word < self.now.width }
        ensures { (r : ℕ) →
            r / 64 ≡ word →
            bit_at among (r % 64) ≡ 1 →
            ((k : ℕ) → k < length marks.now → IsIn self.now (slice_index marks.now k) r) →
            bit_at result (r % 64) ≡ 1 }
    {
        let mut rows = among;
        for mark in marks {
            if rows == 0 {
                return 0;
            }
            rows = both(rows, self.words[place(*mark, word)]);
        }
        rows
    }
}
