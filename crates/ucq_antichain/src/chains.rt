//! Chains of rows, one for each key: a mark of the one set of a signature beside a mark of the other.
ghost use Rattle.std.specs.Prelude.{◌≡◌, ◌≢◌, ◌+◌, ◌*◌, ◌<◌, ◌≤◌, ℕ, length, slice_index, vec_len, IfOk};
ghost use Rattle.std.specs.Vec.{vec_capacity};
ghost use Rattle.std.specs.Int.{bit_at};
ghost use Rattle.ucq_antichain.specs.inner.Chains.{IsInChain, Keeps, KeepsBut};

use crate::push_within;
use std::alloc::Global;
use std::marker::Model;
use ucq_terms::NoMemory;

// The key that every query is taken to have, beside its 128 by 128 pairs of marks.
pub(crate) const NO_PAIR: u32 = 16384;

/// A chain of rows for each key, the newest first. A link is 0 at the end of a chain, else the row and one more. Contracts see it
/// as the first link of each chain and what follows each link.
#[derive(Drop)]
pub struct Chains {
    heads: Vec<u32>,
    next: Vec<u32>,
    // the key of each row, at its link; where another stood, the row would only stay in its chain
    keys: Vec<u16>,
    // for each mark of the one set those of the other whose chain may have a row
    filled: Vec<u128>,
}

impl Model for Chains {
    ghost use Rattle.std.specs.Prelude.{◌<◌, vec_len};
    ghost use Rattle.std.specs.Vec.{vec_capacity};
    ghost use Rattle.ucq_antichain.specs.inner.Chains.{Chained, AreChains};

    ghost Value = { Chained };

    ghost view = { λ c.
        record { heads = c.heads.items; next = c.next.items; room = vec_capacity c.next } };

    ghost invariant = { λ c. AreChains c.heads.items c.next.items c.filled.items };
}

/// The key of a mark beside another.
pub(crate) fn pair(first: u32, second: u32) -> u32
    requires first { first < 128 }
    requires second { second < 128 }
    ensures { result ≡ 128 * first + second }
{
    128 * first + second
}

impl Chains {
    /// Empty chains with room for so many rows.
    pub fn new(alloc: Global, rows: usize) -> Result<Chains, NoMemory>
        requires { rows ≤ 65536 }
        ensures { IfOk result (λ c.
            (length c.next ≡ 1) × (slice_index c.next 0 ≡ 0) × (rows < c.room)) }
    {
        let heads = vec![in alloc; 0; NO_PAIR as usize + 1]?;
        let filled = vec![in alloc; 0; 129]?;
        let keys = vec![in alloc; 0; rows + 1]?;
        let mut next = Vec::with_capacity(alloc, rows + 1)?;
        push_within(&mut next, 0);
        Ok(Chains {
            heads,
            next,
            keys,
            filled,
        })
    }

    /// The first link of a chain.
    pub fn head(&self, key: u32) -> u32
        requires { key ≤ 16384 }
        ensures head { result ≡ slice_index self.now.heads key }
        ensures within { result < length self.now.next }
    {
        self.heads[key as usize]
    }

    /// The link that follows one which is not the end.
    pub fn after(&self, link: u32) -> u32
        requires link { 0 < link }
        requires within { link < length self.now.next }
        ensures after { result ≡ slice_index self.now.next link }
        ensures falls { result < link }
    {
        self.next[link as usize]
    }

    /// Of the marks of the other set those whose chain beside this mark may have a row.
    pub fn filled(&self, first: u32, others: u128) -> u128
        requires { first < 128 }
        ensures { (j : ℕ) →
            j < 128 →
            bit_at others j ≡ 1 →
            bit_at result j ≡ 0 →
            (row : ℕ) →
            ¬ IsInChain self.now (128 * first + j) row }
    {
        self.filled[first as usize] & others
    }

    /// Adds the next row to the chain of a key.
    pub fn push(&mut self, key: u32)
        requires key { key ≤ 16384 }
        requires few { length self.old.next ≤ 65536 }
        requires room { length self.old.next < self.old.room }
        ensures has { (row : ℕ) → length self.old.next ≡ row + 1 → IsInChain self.new key row }
        ensures keeps { Keeps self.old self.new }
        ensures length { length self.new.next ≡ length self.old.next + 1 }
        ensures ends { slice_index self.new.next 0 ≡ 0 }
        ensures room { self.old.room ≤ self.new.room }
    {
        let link = self.next.len() as u32;
        let after = self.heads[key as usize];
        push_within(&mut self.next, after);
        self.heads[key as usize] = link;
        let first = key as usize / 128;
        self.filled[first] = with_mark(self.filled[first], key % 128);
        note_key(&mut self.keys, link, key);
    }

    /// Takes a row out of its chain.
    pub fn remove(&mut self, row: u32)
        requires few { row < 65536 }
        requires within { row + 1 < length self.old.next }
        ensures keeps { KeepsBut self.old self.new (row + 1) }
        ensures length { length self.new.next ≡ length self.old.next }
        ensures ends { slice_index self.new.next 0 ≡ 0 }
        ensures room { self.old.room ≤ self.new.room }
    {
        let link = row + 1;
        let key = key_of(self.keys.as_slice(), link);
        let before = self.before(key, link);
        if before == 0 {
            self.remove_first(key, link);
        } else {
            self.remove_after(before, link);
        }
    }

    // The last link of a chain that is above this one, or 0 if there is none.
    fn before(&self, key: u32, link: u32) -> u32
        requires { key ≤ 16384 }
        ensures within { result < length self.now.next }
        ensures above { 0 < result → link < result }
    {
        let mut before = 0;
        let mut at = self.heads[key as usize];
        while at > link {
            before = at;
            at = self.next[at as usize];
        }
        before
    }

    // Takes a link out of a chain if it is the first.
    fn remove_first(&mut self, key: u32, link: u32)
        requires key { key ≤ 16384 }
        requires some { 0 < link }
        requires within { link < length self.old.next }
        ensures keeps { KeepsBut self.old self.new link }
        ensures next { self.new.next ≡ self.old.next }
        ensures room { self.new.room ≡ self.old.room }
    {
        if self.heads[key as usize] != link {
            return;
        }
        let after = self.next[link as usize];
        self.heads[key as usize] = after;
        if after == 0 {
            let first = key as usize / 128;
            self.filled[first] = without_mark(self.filled[first], key % 128);
        }
    }

    // Takes a link out of its chain if it follows another.
    fn remove_after(&mut self, before: u32, link: u32)
        requires some { 0 < link }
        requires above { link < before }
        requires within { before < length self.old.next }
        ensures keeps { KeepsBut self.old self.new link }
        ensures length { length self.new.next ≡ length self.old.next }
        ensures ends { slice_index self.new.next 0 ≡ 0 }
        ensures room { self.new.room ≡ self.old.room }
    {
        if self.next[before as usize] == link {
            self.next[before as usize] = self.next[link as usize];
        }
    }
}

// Notes the key of a link.
fn note_key(keys: &mut Vec<u16>, link: u32, key: u32)
    requires { key ≤ 16384 }
{
    if let Some(noted) = keys.get_mut(link as usize) {
        *noted = key as u16;
    }
}

// The key that was noted of a link.
fn key_of(keys: &[u16], link: u32) -> u32
    ensures { result ≤ 16384 }
{
    let noted = keys.get(link as usize).copied().unwrap_or(0);
    (noted as u32).min(NO_PAIR)
}

fn with_mark(marks: u128, mark: u32) -> u128
    requires { mark < 128 }
    ensures has { bit_at result mark ≡ 1 }
    ensures kept { (i : ℕ) → bit_at marks i ≡ 1 → bit_at result i ≡ 1 }
{
    marks | 1 << mark
}

fn without_mark(marks: u128, mark: u32) -> u128
    requires { mark < 128 }
    ensures { (i : ℕ) → i < 128 → i ≢ mark → bit_at result i ≡ bit_at marks i }
{
    marks & !(1 << mark)
}
