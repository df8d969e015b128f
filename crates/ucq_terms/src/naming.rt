//! Names and their numbers.
ghost use Rattle.std.specs.Prelude.{◌≡◌, ◌≢◌, ◌<◌, ◌-◌, ◌^◌, [], length, AllPairs, Contains, IfOk, IfErr, IfSome, MatchOption, Some, OnOk, OnErr, slice_get, List, ℕ};
ghost use Rattle.ucq_terms.specs.Names.{name_text, number_of, with_name};
ghost use Rattle.ucq_terms.specs.inner.Texts.{text_bytes};

use crate::NoMemory;
use crate::text::Text;
use indexmap::IndexSet;
use std::alloc::Global;
use std::marker::Model;

/// The texts of names, of predicates and constants alike, numbered from 0 in order of first occurrence. No text stands
/// twice. Look-ups take the time of a hash of the text.
#[derive(Drop)]
pub struct Names {
    texts: IndexSet<Text<'static>>,
}

impl Model for Names {
    ghost use Rattle.std.specs.Prelude.{ℕ, List, map, ◌<◌, ◌^◌, length};
    ghost use Rattle.ucq_terms.specs.inner.Texts.{text_bytes};

    ghost Value = { List (List ℕ) };

    ghost view = { λ n. map text_bytes n.texts.keys };

    ghost invariant = { λ n. length n.texts.keys < 2 ^ 32 };
}

impl Names {
    /// No names.
    pub fn new(alloc: Global) -> Result<Names, NoMemory>
        ensures { IfOk result (λ n. n ≡ []) }
    {
        Ok(Names {
            texts: IndexSet::new(alloc),
        })
    }

    /// The number of the text, which is added where it isn't held yet. After want of memory the names are as before.
    pub fn number(&mut self, text: &[u8]) -> Result<u32, NoMemory>
        requires { length self.old < 2 ^ 32 - 1 }
        ensures names { OnOk result (self.new ≡ with_name self.old text.now) }
        ensures number { IfOk result (λ n. n ≡ number_of self.new text.now) }
        ensures held { IfOk result (λ n. slice_get self.new n ≡ Some text.now) }
        ensures err { OnErr result (self.new ≡ self.old) }
    {
        match Text::short(text) {
            Some(short) => self.add(short),
            None => match self.find(text) {
                Some(number) => Ok(number),
                None => {
                    let long = Text::long(*self.texts.allocator(), text)?;
                    self.add(long)
                }
            },
        }
    }

    // The same, of a text that is made already. One look-up both finds the text and adds it.
    fn add(&mut self, text: Text<'static>) -> Result<u32, NoMemory>
        requires { length self.old < 2 ^ 32 - 1 }
        ensures names { OnOk result (self.new ≡ with_name self.old (text_bytes text.entry)) }
        ensures number { IfOk result (λ n. n ≡ number_of self.new (text_bytes text.entry)) }
        ensures held { IfOk result (λ n. slice_get self.new n ≡ Some (text_bytes text.entry)) }
        ensures err { OnErr result (self.new ≡ self.old) }
    {
        let (place, _added) = self.texts.insert_full(text)?;
        Ok(place as u32)
    }

    /// The number of the text, where it is held.
    pub fn find(&self, text: &[u8]) -> Option<u32>
        ensures held { MatchOption result (Contains self.now text.now → ⊥) (λ n.
            slice_get self.now n ≡ Some text.now) }
        ensures number { IfSome result (λ n. n ≡ number_of self.now text.now) }
    {
        let place = self.texts.get_index_of(&Text::Asked(text))?;
        Some(place as u32)
    }

    /// The text of the number, which is held.
    pub fn text(&self, number: u32) -> &[u8]
        requires { number < length self.now }
        ensures { slice_get self.now number ≡ Some result.now }
    {
        self.texts.get_index(number as usize).unwrap().bytes()
    }

    /// The text of the number, which is nothing where it isn't held.
    pub fn text_or_empty(&self, number: u32) -> &[u8]
        ensures { result.now ≡ name_text self.now number }
    {
        if number < self.len() {
            self.text(number)
        } else {
            b""
        }
    }

    /// How many names are held.
    pub fn len(&self) -> u32
        ensures len { result ≡ length self.now }
        ensures different { AllPairs (λ a b. a ≢ b) self.now }
    {
        self.texts.len() as u32
    }
}
