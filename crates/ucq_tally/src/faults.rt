//! Why there is no tally.
ghost use Rattle.std.specs.Prelude.{◌≡◌};
ghost use Rattle.ucq_tally.specs.declared.faults.Fault.TheVariants.{Memory};

use std::alloc::{AllocError, AllocFailed, Global};
use std::io;
use std::io::Write;
use ucq_print::refusal_text;
use ucq_reader::ReadFault;
use ucq_terms::NoMemory;
use ucq_words::WordsFault;

/// Why there is no tally, each with its status and its line on the error stream.
#[derive(Drop)]
pub enum Fault {
    /// Want of memory.
    Memory,
    /// The words stand for no settings.
    BadWords,
    /// A file can't be read.
    Unreadable { file: u32 },
    /// The files up to this one have too many bytes together.
    TooLong { file: u32 },
    /// The reader refuses the files, with this line.
    Refused { line: Vec<u8> },
    /// The output can't be written.
    Unwritten,
}

impl From<AllocError> for Fault {
    ghost from_gives = { λ _ fault. fault ≡ Memory };

    fn from(_error: AllocError) -> Fault {
        Fault::Memory
    }
}

impl<T: Drop> From<AllocFailed<T>> for Fault {
    ghost from_gives = { λ _ fault. fault ≡ Memory };

    fn from(_error: AllocFailed<T>) -> Fault {
        Fault::Memory
    }
}

impl From<NoMemory> for Fault {
    ghost from_gives = { λ _ fault. fault ≡ Memory };

    fn from(_error: NoMemory) -> Fault {
        Fault::Memory
    }
}

impl From<WordsFault> for Fault {
    fn from(fault: WordsFault) -> Fault {
        match fault {
            WordsFault::BadWords => Fault::BadWords,
            WordsFault::Memory => Fault::Memory,
        }
    }
}

/// The line of a refusal of the reader.
fn refusal_line(alloc: Global, fault: ReadFault) -> Result<Vec<u8>, NoMemory> {
    if let ReadFault::Memory = fault {
        return Err(NoMemory);
    }
    let mut line = refusal_text(alloc, &fault)?;
    line.push(b'\n')?;
    Ok(line)
}

/// What a refusal of the reader is here.
pub fn refusal(alloc: Global, fault: ReadFault) -> Fault {
    match refusal_line(alloc, fault) {
        Ok(line) => Fault::Refused { line },
        Err(NoMemory) => Fault::Memory,
    }
}

/// The status of a fault, as `ucq` has it.
pub fn status_of(fault: &Fault) -> u8 {
    match fault {
        Fault::Memory => 1,
        Fault::BadWords => 2,
        Fault::Unreadable { file: _ } => 3,
        Fault::TooLong { file: _ } | Fault::Refused { line: _ } => 4,
        Fault::Unwritten => 6,
    }
}

/// Writes the line of a fault on the error stream.
pub fn tell(rt: &HostRuntime, fault: &Fault) -> io::Result<()> {
    match fault {
        Fault::Memory => eprintln!(rt; "ucq_tally: out of memory"),
        Fault::BadWords => eprintln!(rt;
            "ucq_tally: usage: ucq_tally [--budget N] FILE... or ucq_tally [--budget N] --make N"
        ),
        Fault::Unreadable { file } => eprintln!(rt; "ucq_tally: read fault in file {file}"),
        Fault::TooLong { file } => eprintln!(rt; "ucq_tally: files too long at file {file}"),
        Fault::Refused { line } => rt.stderr().write_all(line.as_slice()),
        Fault::Unwritten => eprintln!(rt; "ucq_tally: write fault"),
    }
}
