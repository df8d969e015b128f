//! The search for places on which the atoms of a query fall under a renaming of its variables.
ghost use Rattle.std.specs.Prelude.{◌≡◌, ◌<◌, ◌≤◌, ◌+◌, ◌↔◌, ℕ, true, false, length, zip, IsTrue, slice_index};
ghost use Rattle.ucq_terms.specs.declared.Term.{Term};
ghost use Rattle.ucq_terms.specs.Syntax.{Atom};
ghost use Rattle.ucq_terms.specs.Homomorphism.{IsIsomorphism};
ghost use Rattle.ucq_hom.specs.Search.{ArePlaces};
ghost use Rattle.ucq_fold.specs.inner.Agreement.{all_agree as agree_all};
ghost use Rattle.ucq_fold.specs.inner.Placing.{IsPlaced, Leads, visited};

use crate::agreement::{all_agree, goes_with_answers};
use ucq_terms::{Atom, Query};

/// Whether the terms of the atom and of its image agree with those of the first atoms of the order.
fn agrees_with_first(
    a: &Query,
    b: &Query,
    order: &[u32],
    images: &[u32],
    count: usize,
    atom: &Atom,
    image: &Atom,
) -> bool
    requires order { ArePlaces a.now.atoms order.now }
    requires count { count ≤ length order.now }
    requires room { length order.now ≤ length images.now }
    requires within { (i : ℕ) → i < count → slice_index images.now i < length b.now.atoms }
    ensures { IsTrue result
        ↔ ((i : ℕ) →
        i < count →
        agree_all
        (zip atom.now.terms image.now.terms)
        (zip (visited a.now order.now i).terms (visited b.now images.now i).terms)
        ≡ true) }
{
    for i in 0..count {
        let earlier = a.atoms()[order[i] as usize].terms();
        let placed = b.atoms()[images[i] as usize].terms();
        if !all_agree(atom.terms(), image.terms(), earlier, placed) {
            return false;
        }
    }
    true
}

/// Whether the image of the atom that the order visits at the place `at` goes with those before it.
fn fits(a: &Query, b: &Query, order: &[u32], images: &[u32], at: usize) -> bool
    requires order { ArePlaces a.now.atoms order.now }
    requires at { at < length order.now }
    requires room { length order.now ≤ length images.now }
    requires within { (i : ℕ) → i < at + 1 → slice_index images.now i < length b.now.atoms }
    ensures placed { result ≡ true →
        IsPlaced a.now b.now order.now images.now at →
        IsPlaced a.now b.now order.now images.now (at + 1) }
    ensures none { result ≡ false →
        (h : ℕ → Term) →
        IsIsomorphism h a.now b.now →
        Leads h a.now b.now order.now images.now (at + 1) →
        ⊥ }
{
    let atom = &a.atoms()[order[at] as usize];
    let image = &b.atoms()[images[at] as usize];
    goes_with_answers(atom, image, a.answers(), b.answers())
        && agrees_with_first(a, b, order, images, at, atom, image)
}

/// Places the atoms that the order visits from `at` on, so that they go with those before. If there is no way to, no
/// renaming that leads to the images of those before carries the one query to the other.
pub fn place_rest(a: &Query, b: &Query, order: &[u32], images: &mut [u32], at: usize) -> bool
    requires order { ArePlaces a.now.atoms order.now }
    requires at { at ≤ length order.now }
    requires room { length order.now ≤ length images.old }
    requires placed { IsPlaced a.now b.now order.now images.old at }
    ensures found { result ≡ true → IsPlaced a.now b.now order.now images.new (length order.now) }
    ensures none { result ≡ false →
        (h : ℕ → Term) →
        IsIsomorphism h a.now b.now →
        Leads h a.now b.now order.now images.old at →
        ⊥ }
    ensures kept { (i : ℕ) → i < at → slice_index images.new i ≡ slice_index images.old i }
{
    if at >= order.len() {
        return true;
    }
    for place in 0..b.atoms().len() as u32 {
        images[at] = place;
        if fits(a, b, order, images, at) && place_rest(a, b, order, images, at + 1) {
            return true;
        }
    }
    false
}
