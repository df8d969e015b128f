//! Lists of places, found by a key.
ghost use Rattle.std.specs.Prelude.{◌≡◌, OnOk, OnErr};
ghost use Rattle.ucq_facts.specs.Postings.{list_at, AreEmpty, KeepsLists, IsPushed, IsPopped};

use indexmap::IndexMap;
use smallvec::SmallVec;
use std::alloc::Global;
use std::hash::Hash;
use ucq_terms::NoMemory;

/// A list of places for each key. A key without an entry has the empty list. Short lists need no memory of their own.
#[derive(Drop)]
pub(crate) struct Postings<K: Eq + Hash> {
    lists: IndexMap<K, SmallVec<u32, 4>>,
}

impl<K: Eq + Hash + Drop> Postings<K> {
    /// The empty list for each key.
    pub(crate) fn new(alloc: Global) -> Postings<K>
        ensures { AreEmpty K.eq result }
    {
        Postings {
            lists: IndexMap::new(alloc),
        }
    }

    /// The key's list.
    pub(crate) fn list(&self, key: &K) -> &[u32]
        ensures { result.now ≡ list_at K.eq self.now key.now }
    {
        match self.lists.get(key) {
            Some(list) => list.as_slice(),
            None => &[],
        }
    }

    /// Puts the place last in the key's list. After want of memory all lists are as before.
    pub(crate) fn push(&mut self, key: K, place: u32) -> Result<(), NoMemory>
        ensures pushed { OnOk result (IsPushed K.eq self.old key place self.new) }
        ensures err { OnErr result (KeepsLists K.eq self.old self.new) }
    {
        let none = SmallVec::new(*self.lists.allocator());
        self.lists.entry(key)?.or_insert(none).push(place)?;
        Ok(())
    }

    /// Takes the last place out of the key's list.
    pub(crate) fn pop(&mut self, key: &K)
        ensures { IsPopped K.eq self.old key.now self.new }
    {
        if let Some(list) = self.lists.get_mut(key) {
            let _ = list.pop();
        }
    }
}
