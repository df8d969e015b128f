//! A query's signature with a list of its marks.
ghost use Rattle.std.specs.Prelude.{◌≡◌, ◌≤◌, take};
ghost use Rattle.ucq_hom.specs.Signature.{signature_of};
ghost use Rattle.ucq_antichain.specs.inner.Sets.{IsListOf};

use crate::bits::next_bit;
use std::marker::Model;
use ucq_hom::Signature;
use ucq_terms::Query;

/// The signature of a query, and the list of its first marks. Contracts see it as the signature.
#[derive(Drop)]
pub struct Marked {
    signature: Signature,
    list: [u32; 128],
    count: usize,
}

impl Model for Marked {
    ghost use Rattle.std.specs.Prelude.{◌≤◌, take};
    ghost use Rattle.ucq_hom.specs.Signature.{Marks};
    ghost use Rattle.ucq_antichain.specs.inner.Sets.{IsListOf};

    ghost Value = { Marks };

    ghost view = { λ m. m.signature };

    ghost invariant = { λ m. (m.count ≤ 128) × IsListOf (take m.count m.list) m.signature.first };
}

impl Marked {
    /// The signature of a query, with the list of its marks.
    pub fn of(query: &Query) -> Marked
        ensures { result ≡ signature_of query.now }
    {
        let signature = Signature::of(query);
        let mut list = [0; 128];
        let count = list_marks(signature.marks(), &mut list);
        Marked {
            signature,
            list,
            count,
        }
    }

    /// The signature.
    pub fn signature(&self) -> &Signature
        ensures { result.now ≡ self.now }
    {
        &self.signature
    }

    /// The first marks.
    pub fn marks(&self) -> &[u32]
        ensures { IsListOf result.now self.now.first }
    {
        &self.list[..self.count]
    }
}

// Writes the marks that are bits of the number, and says how many there are.
fn list_marks(marks: u128, list: &mut [u32; 128]) -> usize
    ensures few { result ≤ 128 }
    ensures list { IsListOf (take result list.new) marks }
{
    let mut count = 0;
    let mut mark = next_bit(marks, 0);
    while mark < 128 {
        list[count] = mark;
        count += 1;
        mark = next_bit(marks, mark + 1);
    }
    count
}
