//! Bits of words.
ghost use Rattle.std.specs.Prelude.{◌≡◌, ◌≢◌, ◌<◌, ◌≤◌, ℕ};
ghost use Rattle.std.specs.Int.{bit_at};

pub(crate) fn with_bit(word: u64, bit: u32) -> u64
    requires { bit < 64 }
    ensures has { bit_at result bit ≡ 1 }
    ensures kept { (i : ℕ) → bit_at word i ≡ 1 → bit_at result i ≡ 1 }
    ensures others { (i : ℕ) → i ≢ bit → bit_at result i ≡ bit_at word i }
{
    word | 1 << bit
}

pub(crate) fn without_bit(word: u64, bit: u32) -> u64
    requires { bit < 64 }
    ensures gone { bit_at result bit ≡ 0 }
    ensures others { (i : ℕ) → i < 64 → i ≢ bit → bit_at result i ≡ bit_at word i }
{
    word & !(1 << bit)
}

pub(crate) fn both(one: u64, other: u64) -> u64
    ensures { (i : ℕ) → bit_at one i ≡ 1 → bit_at other i ≡ 1 → bit_at result i ≡ 1 }
{
    one & other
}

/// The first bit of a word from this one on, or 128 if there is none.
pub(crate) fn next_bit(word: u128, from: u32) -> u32
    requires { from ≤ 128 }
    ensures from { from ≤ result }
    ensures within { result ≤ 128 }
    ensures has { result < 128 → bit_at word result ≡ 1 }
    ensures none { (i : ℕ) → from ≤ i → i < result → bit_at word i ≡ 0 }
{
    if from == 128 {
        return 128;
    }
    let left = word >> from;
    if left == 0 {
        return 128;
    }
    from + left.trailing_zeros()
}
