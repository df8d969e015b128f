//! What a run comes to.
ghost use Rattle.std.specs.Prelude.{◌≡◌};
ghost use Rattle.ucq_run.specs.declared.outcome.Outcome.TheVariants.{NoMemory as WantOfMemory};

use std::alloc::{AllocError, AllocFailed};
use ucq_reader::ReadFault;
use ucq_terms::NoMemory;

/// What a run comes to, each with its status and its line on the error stream.
#[derive(Drop)]
pub enum Outcome {
    /// The union was printed whole.
    Finished,
    /// The rewriting was cut, and the cut was printed whole.
    Cut,
    /// Want of memory.
    NoMemory,
    /// The words stand for no settings.
    BadWords,
    /// A pull from the file failed, which began at this byte.
    ReadFault { file: u32, at: u64 },
    /// The files up to this one have too many bytes together.
    TooLong { file: u32 },
    /// The reader refuses the files.
    Refused { fault: ReadFault },
    /// The output didn't take the text whole.
    WriteFault,
}

impl From<NoMemory> for Outcome {
    ghost from_gives = { λ _ o. o ≡ WantOfMemory };

    fn from(_error: NoMemory) -> Outcome {
        Outcome::NoMemory
    }
}

impl From<AllocError> for Outcome {
    ghost from_gives = { λ _ o. o ≡ WantOfMemory };

    fn from(_error: AllocError) -> Outcome {
        Outcome::NoMemory
    }
}

impl<T: Drop> From<AllocFailed<T>> for Outcome {
    ghost from_gives = { λ _ o. o ≡ WantOfMemory };

    fn from(_error: AllocFailed<T>) -> Outcome {
        Outcome::NoMemory
    }
}
