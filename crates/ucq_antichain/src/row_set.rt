//! A set of rows, as the bits of words.
ghost use Rattle.std.specs.Prelude.{◌≡◌, ◌*◌, ◌/◌, ◌<◌, ◌≤◌, ℕ, length, slice_index, IfOk};
ghost use Rattle.ucq_antichain.specs.inner.Sets.{IsAmong, IsSameBut};

use crate::bits::{with_bit, without_bit};
use std::alloc::Global;
use std::marker::Model;
use ucq_terms::NoMemory;

/// A set of rows. Contracts see it as its words of 64 rows.
#[derive(Drop)]
pub struct RowSet {
    words: Vec<u64>,
}

impl Model for RowSet {
    ghost use Rattle.std.specs.Prelude.{ℕ, List};

    ghost Value = { List ℕ };

    ghost view = { λ s. s.words.items };
}

impl RowSet {
    /// No row, and room for so many words.
    pub fn new(alloc: Global, width: usize) -> Result<RowSet, NoMemory>
        requires { width ≤ 1024 }
        ensures { IfOk result (λ s. (length s ≡ width) × ((row : ℕ) → ¬ IsAmong s row)) }
    {
        let words = vec![in alloc; 0; width]?;
        Ok(RowSet { words })
    }

    /// A word, which is 0 if none of its rows is in the set.
    pub fn word(&self, word: usize) -> u64
        requires { word < length self.now }
        ensures { result ≡ slice_index self.now word }
    {
        self.words[word]
    }

    /// Adds a row.
    pub fn insert(&mut self, row: u32)
        requires { row / 64 < length self.old }
        ensures has { IsAmong self.new row }
        ensures others { IsSameBut self.old self.new row }
    {
        let at = row as usize / 64;
        self.words[at] = with_bit(self.words[at], row % 64);
    }

    /// Takes a row out.
    pub fn remove(&mut self, row: u32)
        requires { row / 64 < length self.old }
        ensures gone { ¬ IsAmong self.new row }
        ensures others { IsSameBut self.old self.new row }
    {
        let at = row as usize / 64;
        self.words[at] = without_bit(self.words[at], row % 64);
    }
}
