//! Sets of rows by marks and chains of rows by pairs of marks, by which the rows are found that may cover a query or be covered
//! by it. A row that was taken out is passed over.
ghost use Rattle.std.specs.Prelude.{◌≡◌, ◌≢◌, ◌+◌, ◌*◌, ◌/◌, ◌%◌, ◌<◌, ◌≤◌, ◌++◌, ◌∷◌, [], ◌⊎◌, ℕ, length, slice_index, IfOk, vec_len};
ghost use Rattle.std.specs.Vec.{vec_capacity};
ghost use Rattle.std.specs.Int.{bit_at};
ghost use Rattle.ucq_hom.specs.Signature.{IsPartOf};
ghost use Rattle.ucq_antichain.specs.inner.Sets.{IsAmong};
ghost use Rattle.ucq_antichain.specs.inner.Index.{signature_at, IsKeyOf, AreChainsOf, IsKeyBeside};

use crate::bits::next_bit;
use crate::chains::{Chains, NO_PAIR, pair};
use crate::marked::Marked;
use crate::push_within;
use crate::row_set::RowSet;
use crate::row_sets::RowSets;
use std::alloc::Global;
use std::marker::Model;
use ucq_hom::Signature;
use ucq_terms::NoMemory;

/// The signatures of rows, in order, and the rows by their marks. Contracts see it as the signatures, how many groups of
/// 4,096 rows there is room for, which rows are kept, and the chains.
#[derive(Drop)]
pub struct Index {
    groups: usize,
    signatures: Vec<Signature>,
    // each row by all its marks
    all: RowSets,
    // the words of these sets that have a row, by its marks
    words: RowSets,
    // the rows that were not taken out
    kept: RowSet,
    // the words that have such a row
    kept_words: RowSet,
    // each of these rows by one pair of its marks
    chains: Chains,
    // how many rows have each pair
    counts: Vec<u16>,
}

impl Model for Index {
    ghost use Rattle.std.specs.Prelude.{◌*◌, ◌≤◌, ◌<◌};
    ghost use Rattle.std.specs.Vec.{vec_capacity};
    ghost use Rattle.ucq_antichain.specs.inner.Index.{Indexed, IsIndex};

    ghost Value = { Indexed };

    ghost view = { λ i.
        record {
          groups = i.groups;
          signatures = i.signatures.items;
          kept = i.kept;
          chains = i.chains;
        } };

    ghost invariant = { λ i.
        IsIndex i.groups i.signatures.items i.all i.words i.kept i.kept_words i.chains
        × (4096 * i.groups ≤ vec_capacity i.signatures)
        × (4096 * i.groups < i.chains.room) };
}

impl Index {
    /// No row, and room for so many groups of 4,096.
    pub fn new(alloc: Global, groups: usize) -> Result<Index, NoMemory>
        requires { groups ≤ 16 }
        ensures { IfOk result (λ i. (i.groups ≡ groups) × (i.signatures ≡ [])) }
    {
        let signatures = Vec::with_capacity(alloc, 4096 * groups)?;
        let all = RowSets::new(alloc, 64 * groups)?;
        let words = RowSets::new(alloc, groups)?;
        let kept = RowSet::new(alloc, 64 * groups)?;
        let kept_words = RowSet::new(alloc, groups)?;
        let chains = Chains::new(alloc, 4096 * groups)?;
        let counts = vec![in alloc; 0; NO_PAIR as usize]?;
        Ok(Index {
            groups,
            signatures,
            all,
            words,
            kept,
            kept_words,
            chains,
            counts,
        })
    }

    /// How many groups of 4,096 the rows take.
    pub fn groups(&self) -> usize
        ensures enough { length self.now.signatures ≤ 4096 * result }
        ensures within { result ≤ self.now.groups }
        ensures few { result ≤ 16 }
    {
        self.signatures.len().div_ceil(4096)
    }

    /// The signature of a row.
    pub fn signature(&self, row: u32) -> &Signature
        requires { row < length self.now.signatures }
        ensures { result.now ≡ signature_at self.now.signatures row }
    {
        &self.signatures[row as usize]
    }

    /// Adds a row.
    pub fn push(&mut self, marked: &Marked)
        requires { length self.old.signatures < 4096 * self.old.groups }
        ensures groups { self.new.groups ≡ self.old.groups }
        ensures signatures { self.new.signatures ≡ self.old.signatures ++ marked.now ∷ [] }
        ensures has { (row : ℕ) → row ≡ length self.old.signatures → IsAmong self.new.kept row }
        ensures others { (row : ℕ) → IsAmong self.old.kept row → IsAmong self.new.kept row }
    {
        let row = self.signatures.len() as u32;
        let marks = marked.marks();
        let others = marked.signature().others();
        let key = rarest(self.counts.as_slice(), marks, others);
        self.all.insert_all(marks, row);
        self.words.insert_all(marks, row / 64);
        self.kept.insert(row);
        self.kept_words.insert(row / 64);
        self.chains.push(key);
        count(&mut self.counts, marks, others);
        push_within(&mut self.signatures, *marked.signature());
    }

    /// Takes a row out, so that nothing looks at it any more.
    pub fn remove(&mut self, row: u32)
        requires { row < length self.old.signatures }
        ensures groups { self.new.groups ≡ self.old.groups }
        ensures signatures { self.new.signatures ≡ self.old.signatures }
        ensures others { (other : ℕ) →
            other ≢ row →
            IsAmong self.old.kept other →
            IsAmong self.new.kept other }
    {
        self.chains.remove(row);
        self.kept.remove(row);
        if self.kept.word(row as usize / 64) == 0 {
            self.kept_words.remove(row / 64);
        }
    }

    /// The chains, in which a row that is kept is under a key that each query has which it covers.
    pub fn chains(&self) -> &Chains
        ensures chains { result.now ≡ self.now.chains }
        ensures keyed { AreChainsOf self.now.chains self.now.signatures self.now.kept }
    {
        &self.chains
    }

    /// Of the 64 words of a group those with a row that is kept and that a query may cover, as bits.
    pub fn words(&self, marked: &Marked, group: usize) -> u64
        requires { group < self.now.groups }
        ensures { (row : ℕ) →
            row < length self.now.signatures →
            IsAmong self.now.kept row →
            row / 4096 ≡ group →
            IsPartOf marked.now.first (signature_at self.now.signatures row).first →
            bit_at result (row / 64 % 64) ≡ 1 }
    {
        self.words
            .common(marked.marks(), group, self.kept_words.word(group))
    }

    /// Of the 64 rows of a word those that are kept and that a query may cover, as bits.
    pub fn rows(&self, marked: &Marked, word: usize) -> u64
        requires { word < 64 * self.now.groups }
        ensures { (row : ℕ) →
            row < length self.now.signatures →
            IsAmong self.now.kept row →
            row / 64 ≡ word →
            IsPartOf marked.now.first (signature_at self.now.signatures row).first →
            bit_at result (row % 64) ≡ 1 }
    {
        self.all.common(marked.marks(), word, self.kept.word(word))
    }
}

// How many rows have the pair.
fn count_of(counts: &[u16], key: u32) -> u16 {
    counts.get(key as usize).copied().unwrap_or(u16::MAX)
}

// Of a key and the pairs of a mark with these others the one that the fewest rows have.
fn rarest_beside(counts: &[u16], first: u32, others: u128, key: u32) -> u32
    requires { first < 128 }
    ensures { (result ≡ key) ⊎ IsKeyBeside others first result }
{
    let mut best = key;
    let mut second = next_bit(others, 0);
    while second < 128 {
        let beside = pair(first, second);
        if count_of(counts, beside) < count_of(counts, best) {
            best = beside;
        }
        second = next_bit(others, second + 1);
    }
    best
}

// The pair of marks that the fewest rows have. It is `NO_PAIR` if there is none.
fn rarest(counts: &[u16], marks: &[u32], others: u128) -> u32
    requires { (k : ℕ) → k < length marks.now → slice_index marks.now k < 128 }
    ensures { (result ≡ 16384)
        ⊎ ((k : ℕ) × (k < length marks.now) × IsKeyBeside others (slice_index marks.now k) result) }
{
    let mut best = NO_PAIR;
    for mark in marks {
        best = rarest_beside(counts, *mark, others, best);
    }
    best
}

fn count_beside(counts: &mut Vec<u16>, first: u32, others: u128)
    requires { first < 128 }
{
    let mut second = next_bit(others, 0);
    while second < 128 {
        if let Some(count) = counts.get_mut(pair(first, second) as usize) {
            *count = count.saturating_add(1);
        }
        second = next_bit(others, second + 1);
    }
}

fn count(counts: &mut Vec<u16>, marks: &[u32], others: u128)
    requires { (k : ℕ) → k < length marks.now → slice_index marks.now k < 128 }
{
    for mark in marks {
        count_beside(counts, *mark, others);
    }
}
