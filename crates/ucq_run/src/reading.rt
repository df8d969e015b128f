//! The reading of whole files.
ghost use Rattle.std.specs.Prelude.{◌≡◌, ◌≤◌, ◌^◌, ◌<◌, ℕ, List, length};
ghost use Rattle.ucq_lexer.specs.declared.TheConstants.{BYTES};
ghost use Rattle.ucq_run.specs.inner.Reading.{IsFileRead};

use std::alloc::Global;
use ucq_outside::{Failed, Shelf};

/// Why a file wasn't read.
#[derive(Clone, Copy, Debug, PartialEq, Eq)]
pub enum Unread {
    /// The pull that began at this byte failed.
    Failed { at: u64 },
    /// The file has more bytes than there is room for.
    TooLong,
    /// Want of memory.
    Memory,
}

/// Reads a file from its start to its end, in pieces of at most 4,096 bytes. It has room for this many bytes.
pub fn read_file<H: Shelf>(
    alloc: Global,
    shelf: &mut H,
    name: &str,
    room: usize,
) -> Result<Vec<u8>, Unread>
    requires { room ≤ BYTES }
    ensures read { IsFileRead (H.held shelf.old name.now) (H.faults shelf.old)
        (H.faults shelf.new) room result }
    ensures held { (n : List ℕ) → H.held shelf.new n ≡ H.held shelf.old n }
    ensures later { H.faults shelf.old ≤ H.faults shelf.new }
{
    let mut bytes: Vec<u8> = Vec::new(alloc);
    let mut piece = [0u8; 4096];
    loop {
        let at = bytes.len();
        if room < at {
            return Err(Unread::TooLong);
        }
        let count = match shelf.pull(name, at as u64, &mut piece) {
            Ok(count) => count,
            Err(Failed) => return Err(Unread::Failed { at: at as u64 }),
        };
        if count == 0 {
            return Ok(bytes);
        }
        if bytes.extend_from_slice(&piece[..count]).is_err() {
            return Err(Unread::Memory);
        }
    }
}
