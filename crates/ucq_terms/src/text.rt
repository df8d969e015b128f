//! Texts of names, as keys.
ghost use Rattle.std.specs.Prelude.{◌≡◌, [], ◌∷◌, IfSome, IfOk};
ghost use Rattle.std.specs.Str.{bytes_eq};
ghost use Rattle.std.specs.Cmp.{on_per, on_equiv, partial_equiv_from_equiv};
ghost use Rattle.std.specs.Cmp.Lexicographic.{bytes_decides, nat_list_eq_equiv};
ghost use Rattle.std.proofs.Common.{ap};
ghost use Rattle.ucq_terms.specs.inner.Texts.{text_bytes};

use crate::NoMemory;
use arrayvec::ArrayVec;
use std::alloc::Global;
use std::hash::{Hash, Hasher};

/// A text, which a set holds or which is looked up there. A short one needs no memory of its own.
#[derive(Drop)]
pub(crate) enum Text<'a> {
    Short(ArrayVec<u8, 16>),
    Long(Vec<u8>),
    Asked(&'a [u8]),
}

impl<'a> Text<'a> {
    /// The bytes of the text.
    #[tactic(auto, unfolding(crate::specs::inner::Texts::text_bytes))]
    pub(crate) fn bytes(&self) -> &[u8]
        ensures { result.now ≡ text_bytes self.now }
    {
        match self {
            Text::Short(bytes) => bytes.as_slice(),
            Text::Long(bytes) => bytes.as_slice(),
            Text::Asked(bytes) => *bytes,
        }
    }
}

impl Text<'static> {
    /// A copy of the bytes, where they are few.
    #[tactic(auto, unfolding(crate::specs::inner::Texts::text_bytes))]
    pub(crate) fn short(bytes: &[u8]) -> Option<Text<'static>>
        ensures { IfSome result (λ t. text_bytes t ≡ bytes.now) }
    {
        let mut copy = ArrayVec::new();
        match copy.try_extend_from_slice(bytes) {
            Ok(()) => Some(Text::Short(copy)),
            Err(_) => None,
        }
    }

    /// A copy of the bytes, however many they are.
    #[tactic(auto, unfolding(crate::specs::inner::Texts::text_bytes))]
    pub(crate) fn long(alloc: Global, bytes: &[u8]) -> Result<Text<'static>, NoMemory>
        ensures { IfOk result (λ t. text_bytes t ≡ bytes.now) }
    {
        Ok(Text::Long(Vec::from_slice(alloc, bytes)?))
    }
}

impl<'a> PartialEq for Text<'a> {
    ghost eq = { λ s t. bytes_eq (text_bytes s) (text_bytes t) };

    ghost laws = { on_per text_bytes (partial_equiv_from_equiv nat_list_eq_equiv) };

    fn eq(&self, other: &Self) -> bool {
        self.bytes() == other.bytes()
    }
}

impl<'a> Eq for Text<'a> {
    ghost laws = { on_equiv text_bytes nat_list_eq_equiv };
}

// All bytes in one write, where a vector's own hash makes a write for each.
impl<'a> Hash for Text<'a> {
    ghost hash_input = { λ t. text_bytes t ∷ [] };

    ghost respects_eq = { λ s t same.
        ap (λ b. b ∷ []) ((bytes_decides (text_bytes s) (text_bytes t)).0 same) };

    fn hash<H: Hasher>(&self, state: &mut H) {
        state.write(self.bytes());
    }
}
