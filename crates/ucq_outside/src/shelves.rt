ghost use Rattle.std.specs.Prelude.{◌≡◌, ◌≤◌, ◌<◌, ℕ, List, Option, Ok, Some, IfOk, IfSome, length, option_map};
ghost use Rattle.ucq_outside.specs.Causes.{HasCause};
ghost use Rattle.ucq_outside.specs.inner.Files.{IsPiece};
ghost use Rattle.ucq_outside.specs.Shelves.{Gives, Pulls, file_named, file_or_empty, files_of, shelf_after};

use crate::files::{Failed, Shelf};
use std::marker::Model;

fn file_of<'a>(files: &'a [(String, Vec<u8>)], name: &str) -> Option<&'a [u8]>
    ensures { option_map (λ s. s.now) result ≡ file_named name.now (files_of files.now) }
{
    files
        .iter()
        .find(|f| f.0.as_str() == name)
        .map(|f| f.1.as_slice())
}

fn give(file: &[u8], place: u64, into: &mut [u8]) -> usize
    ensures gives { Gives file.now place into.old into.new result }
    ensures bound { result ≤ length into.new }
    ensures piece { IsPiece file.now place result into.new }
{
    if file.len() as u64 <= place {
        return 0;
    }
    let from = place as usize;
    let n = into.len().min(file.len() - from);
    into[..n].copy_from_slice(&file[from..from + n]);
    n
}

/// A shelf in memory, of which chosen calls fail.
///
/// Calls are numbered from 0. A call fails exactly where its number was chosen or the name isn't held.
#[derive(Drop)]
pub struct MemoryShelf {
    files: Vec<(String, Vec<u8>)>,
    failing: Vec<u64>,
    calls: u64,
    faults: u64,
}

impl Model for MemoryShelf {
    ghost use Rattle.ucq_outside.specs.Shelves.{FailingShelf, files_of};

    ghost Value = { FailingShelf };

    ghost view = { λ s.
        record {
          files = files_of s.files.items;
          failing = s.failing.items;
          calls = s.calls;
          faults = s.faults;
        } };
}

impl MemoryShelf {
    /// A shelf of these files, whose calls with the numbers in `failing` fail. Of files with equal names the first counts.
    pub fn new(files: Vec<(String, Vec<u8>)>, failing: Vec<u64>) -> MemoryShelf
        ensures { result ≡
            record {
              files = files_of files.items;
              failing = failing.items;
              calls = 0;
              faults = 0;
            } }
    {
        MemoryShelf {
            files,
            failing,
            calls: 0,
            faults: 0,
        }
    }
}

impl Shelf for MemoryShelf {
    ghost held = { λ s name. file_named name s.files };

    ghost faults = { λ s. s.faults };

    /// Gives as many bytes as fit. Takes time in the number of files and of failing calls.
    fn pull(&mut self, name: &str, place: u64, into: &mut [u8]) -> Result<usize, Failed>
        ensures answer { Pulls self.old name.now place into.old into.new result }
        ensures after { self.new ≡ shelf_after result self.old }

        // What each shelf ensures.
        ensures bound { IfOk result (λ n. n ≤ length into.new) }
        ensures bytes { IfOk result (λ n.
            IfSome (file_named name.now self.old.files) (λ file. IsPiece file place n into.new)) }
        ensures held { (n : List ℕ) → file_named n self.new.files ≡ file_named n self.old.files }
        ensures cause { HasCause self.old.faults self.new.faults result }
    {
        let number = self.calls;
        self.calls = number.saturating_add(1);
        if !self.failing.contains(&number) {
            if let Some(file) = file_of(self.files.as_slice(), name) {
                return Ok(give(file, place, into));
            }
        }
        self.faults = self.faults.saturating_add(1);
        Err(Failed)
    }
}

/// A shelf in memory that never fails. A name that it doesn't hold stands for an empty file.
#[derive(Drop)]
pub struct SureShelf {
    files: Vec<(String, Vec<u8>)>,
}

impl Model for SureShelf {
    ghost use Rattle.ucq_outside.specs.Shelves.{Files, files_of};

    ghost Value = { Files };

    ghost view = { λ s. files_of s.files.items };
}

impl SureShelf {
    /// A shelf of these files. Of files with equal names the first counts.
    pub fn new(files: Vec<(String, Vec<u8>)>) -> SureShelf
        ensures { result ≡ files_of files.items }
    {
        SureShelf { files }
    }
}

impl Shelf for SureShelf {
    ghost held = { λ s name. Some (file_or_empty name s) };

    ghost faults = { λ s. 0 };

    /// Gives as many bytes as fit. Takes time in the number of files.
    fn pull(&mut self, name: &str, place: u64, into: &mut [u8]) -> Result<usize, Failed>
        ensures answer { (n : ℕ)
            × (result ≡ Ok n)
            × Gives (file_or_empty name.now self.old) place into.old into.new n }
        ensures after { self.new ≡ self.old }

        // What each shelf ensures.
        ensures bound { IfOk result (λ n. n ≤ length into.new) }
        ensures bytes { IfOk result (λ n.
            IsPiece (file_or_empty name.now self.old) place n into.new) }
        ensures held { (n : List ℕ) →
            Some (file_or_empty n self.new) ≡ Some (file_or_empty n self.old) }
        ensures cause { HasCause 0 0 result }
    {
        match file_of(self.files.as_slice(), name) {
            Some(file) => Ok(give(file, place, into)),
            None => Ok(0),
        }
    }
}
