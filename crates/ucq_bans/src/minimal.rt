//! The sets of which no other one is a part.
ghost use Rattle.std.specs.Prelude.{◌≡◌, ◌≤◌, ◌↔◌, length, map, drop, nat_le, All, IfOk, IsTrue};
ghost use Rattle.ucq_bans.specs.Conflicts.{IsRising};
ghost use Rattle.ucq_bans.specs.inner.Parts.{AreBeginning, AreMinimal, AreSorted, AreSortedBehind, IsCutAt, SomePart, key_of};

use crate::violations::Conflict;
use std::alloc::Global;
use ucq_terms::NoMemory;

/// Whether the list ends at the depth, or has a place below the end there.
fn is_before(set: &[u32], depth: usize, end: u64) -> bool
    ensures { result ≡ nat_le (key_of (drop depth set.now)) end }
{
    set.len() <= depth || (set[depth] as u64) < end
}

/// How many of the sets end at the depth, or have a place below the end there, by binary search.
fn count_before(sets: &[Vec<u32>], depth: usize, end: u64) -> usize
    requires { AreSortedBehind depth (map (λ t. t.items) sets.now) }
    ensures bound { result ≤ length sets.now }
    ensures cut { IsCutAt depth end (map (λ t. t.items) sets.now) result }
{
    sets.partition_point(|set| is_before(set.as_slice(), depth, end))
}

/// Those of the sets that have the place at the depth.
fn with_place(sets: &[Vec<u32>], depth: usize, place: u32) -> &[Vec<u32>]
    requires { AreSortedBehind depth (map (λ t. t.items) sets.now) }
    ensures { AreBeginning
        depth
        place
        (map (λ t. t.items) sets.now)
        (map (λ t. t.items) result.now) }
{
    let start = count_before(sets, depth, place as u64);
    let rest = &sets[start..];
    let end = count_before(rest, depth, place as u64 + 1);
    &rest[..end]
}

/// Whether one of the sets has fewer places than `size`, of which those from the depth on are some of these. It is searched
/// among the sets that have the first of these places at the depth, and then without that place.
fn has_part(sets: &[Vec<u32>], depth: usize, places: &[u32], size: usize) -> bool
    requires sorted { AreSortedBehind depth (map (λ t. t.items) sets.now) }
    ensures { IsTrue result ↔ SomePart depth places.now size (map (λ t. t.items) sets.now) }
{
    let Some(first) = sets.first() else {
        return false;
    };
    if depth >= size {
        return false;
    }
    if first.len() == depth {
        return true;
    }
    let Some((place, rest)) = places.split_first() else {
        return false;
    };
    has_part(with_place(sets, depth, *place), depth + 1, rest, size)
        || has_part(sets, depth, rest, size)
}

/// Those of the sets of which no other one is a part, in their order. Takes memory for these; the sets that begin with some
/// of a set's places are found by binary search, and no others are looked at.
pub(crate) fn minimal(alloc: Global, sets: &[Vec<u32>]) -> Result<Vec<Conflict>, NoMemory>
    requires rising { All IsRising (map (λ t. t.items) sets.now) }
    requires sorted { AreSorted (map (λ t. t.items) sets.now) }
    ensures { IfOk result (λ minimal.
        AreMinimal (map (λ t. t.items) sets.now) minimal.items) }
{
    let mut minimal = Vec::new(alloc);
    for set in sets {
        let places = set.as_slice();
        if !has_part(sets, 0, places, places.len()) {
            minimal.push(Conflict::new(Vec::from_slice(alloc, places)?))?;
        }
    }
    Ok(minimal)
}
