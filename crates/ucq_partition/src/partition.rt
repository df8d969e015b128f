//! Partitions.
ghost use Rattle.std.specs.Prelude.{◌≡◌, ◌<◌, ◌≤◌, ◌^◌, ◌++◌, ◌↔◌, ℕ, List, [], ◌∷◌, length, IfOk, IsTrue, slice_index, nat_eq, if◌then◌else◌};
ghost use Rattle.ucq_partition.specs.Partition.{AreLinked, IsMadeBy, label_of, relabelled};

use crate::NoMemory;
use std::alloc::Global;
use std::marker::Model;

/// The numbers below a bound, in classes. Contracts see the label of each number, and say by `IsMadeBy` which joins made
/// the classes.
#[derive(Drop)]
pub struct Partition {
    labels: Vec<u32>,
}

impl Model for Partition {
    ghost use Rattle.std.specs.Prelude.{◌<◌, ◌^◌, ℕ, List, length};

    ghost Value = { List ℕ };

    ghost view = { λ p. p.labels.items };

    ghost invariant = { λ p. length p.labels.items < 2 ^ 32 };
}

impl Partition {
    /// Each number below `size` alone.
    pub fn new(alloc: Global, size: u32) -> Result<Partition, NoMemory>
        ensures size { IfOk result (λ p. length p ≡ size) }
        ensures alone { IfOk result (λ p. IsMadeBy [] p) }
    {
        let mut labels = vec![in alloc; 0; size as usize]?;
        number(labels.as_mut_slice());
        Ok(Partition { labels })
    }

    /// Each number alone again. Takes the time of the size.
    pub fn clear(&mut self)
        ensures size { length self.new ≡ length self.old }
        ensures alone { IsMadeBy [] self.new }
    {
        number(self.labels.as_mut_slice());
    }

    /// Makes one class of those of the two numbers. Takes the time of the size, and no memory.
    pub fn join(&mut self, a: u32, b: u32)
        requires a { a < length self.old }
        requires b { b < length self.old }
        ensures size { length self.new ≡ length self.old }
        ensures made { (joins : List (ℕ × ℕ)) →
            IsMadeBy joins self.old →
            IsMadeBy (joins ++ (a, b) ∷ []) self.new }
    {
        let first = self.labels[a as usize];
        let second = self.labels[b as usize];
        if first < second {
            relabel(self.labels.as_mut_slice(), second, first);
        } else {
            relabel(self.labels.as_mut_slice(), first, second);
        }
    }

    /// Whether a chain of joins links the two numbers.
    pub fn same(&self, a: u32, b: u32) -> bool
        requires a { a < length self.now }
        requires b { b < length self.now }
        ensures { (joins : List (ℕ × ℕ)) →
            IsMadeBy joins self.now →
            (IsTrue result ↔ AreLinked joins a b) }
    {
        self.labels[a as usize] == self.labels[b as usize]
    }

    /// The least number of the class of this one.
    pub fn label(&self, a: u32) -> u32
        requires { a < length self.now }
        ensures value { result ≡ label_of self.now a }
        ensures linked { (joins : List (ℕ × ℕ)) →
            IsMadeBy joins self.now →
            AreLinked joins a result }
        ensures least { (joins : List (ℕ × ℕ)) (b : ℕ) →
            IsMadeBy joins self.now →
            AreLinked joins a b →
            result ≤ b }
    {
        self.labels[a as usize]
    }
}

// Writes the numbers from 0 on.
fn number(labels: &mut [u32])
    requires { length labels.old < 2 ^ 32 }
    ensures { (k : ℕ) → k < length labels.new → slice_index labels.new k ≡ k }
{
    for i in 0..labels.len() {
        labels[i] = i as u32;
    }
}

// Writes the second label in place of the first.
fn relabel(labels: &mut [u32], from: u32, to: u32)
    ensures { labels.new ≡ relabelled labels.old from to }
{
    for label in labels.iter_mut() {
        *label = replaced(*label, from, to);
    }
}

fn replaced(label: u32, from: u32, to: u32) -> u32
    ensures { result ≡ if nat_eq label from then to else label }
{
    if label == from { to } else { label }
}
