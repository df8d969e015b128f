//! Numbers, and bytes between quotes.
ghost use Rattle.std.specs.Prelude.{◌≡◌, ◌∷◌, ◌++◌, [], OnOk, decimal};
ghost use Rattle.ucq_sql.specs.Text.{doubled, quoted};

use itoa::Buffer;
use ucq_terms::NoMemory;

/// Adds the number in decimal.
pub(crate) fn push_number(text: &mut Vec<u8>, number: u64) -> Result<(), NoMemory>
    ensures { OnOk result (text.new.items ≡ text.old.items ++ decimal number) }
{
    text.extend_from_slice(Buffer::new().format(number).as_bytes())?;
    Ok(())
}

/// Adds the bytes, with each quote among them twice.
pub(crate) fn push_doubled(text: &mut Vec<u8>, quote: u8, bytes: &[u8]) -> Result<(), NoMemory>
    ensures { OnOk result (text.new.items ≡ text.old.items ++ doubled quote bytes.now) }
{
    for byte in bytes {
        text.push(*byte)?;
        if *byte == quote {
            text.push(*byte)?;
        }
    }
    Ok(())
}

/// Adds the bytes between quotes, with each quote among them twice.
pub(crate) fn push_quoted(text: &mut Vec<u8>, quote: u8, bytes: &[u8]) -> Result<(), NoMemory>
    ensures { OnOk result (text.new.items ≡ text.old.items ++ quoted quote bytes.now) }
{
    text.push(quote)?;
    push_doubled(text, quote, bytes)?;
    text.push(quote)?;
    Ok(())
}
