//! The numbers of options.
ghost use Rattle.std.specs.Prelude.{◌≡◌, ◌<◌, ◌≤◌, ◌+◌, ◌-◌, ◌*◌, ◌^◌, ℕ, MatchOption, option_map};
ghost use Rattle.ucq_words.specs.Settings.{IsDigit, IsNumber, SpellsNumber};

/// The most digits of a number.
const MOST_DIGITS: usize = 9;

/// The number of an option: the one that its value spells, or the default where the option isn't given.
pub(crate) fn number_or(value: Option<&str>, least: u32, most: u32, default: u32) -> Option<u32>
    requires { most < 2 ^ 28 }
    ensures { MatchOption
        result
        ((number : ℕ) →
        IsNumber least most default (option_map (λ v. v.now) value.entry) number →
        ⊥)
        (λ number. IsNumber least most default (option_map (λ v. v.now) value.entry) number) }
{
    match value {
        Some(digits) => number_of(digits.as_bytes(), least, most),
        None => Some(default),
    }
}

/// The number of `least` to `most` that these bytes spell, 1 to 9 digits.
pub(crate) fn number_of(digits: &[u8], least: u32, most: u32) -> Option<u32>
    requires { most < 2 ^ 28 }
    ensures { MatchOption result
        ((number : ℕ) → SpellsNumber least most digits.now number → ⊥)
        (λ number. SpellsNumber least most digits.now number) }
{
    if digits.is_empty() || digits.len() > MOST_DIGITS {
        return None;
    }
    let mut value = 0;
    for byte in digits {
        value = with_digit(value, *byte, most)?;
    }
    if value < least { None } else { Some(value) }
}

/// The number with this digit behind it, which is no more than `most`.
fn with_digit(value: u32, byte: u8, most: u32) -> Option<u32>
    requires value { value ≤ most }
    requires most { most < 2 ^ 28 }
    ensures { MatchOption result
        (IsDigit byte → most < 10 * value + (byte - 48))
        (λ more. IsDigit byte × (more ≡ 10 * value + (byte - 48)) × (more ≤ most)) }
{
    if !byte.is_ascii_digit() {
        return None;
    }
    let more = 10 * value + u32::from(byte - b'0');
    if more > most { None } else { Some(more) }
}
