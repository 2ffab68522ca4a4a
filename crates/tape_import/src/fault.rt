//! What ends the reading of a recording, and why a file isn't read as one.

use std::alloc::AllocError;
use std::fmt;

/// What is wrong with a line, an entry or a record. The limits are ours.
#[derive(Clone, Copy, Debug, PartialEq, Eq)]
pub enum EventFault {
    /// It isn't what it has to be in its form.
    BadEvent,
    /// A message of tlog isn't the one behind the message before it.
    OutOfOrder,
    /// An output has more bytes than a chunk.
    ChunkTooLong,
    /// It is one chunk too many.
    TooManyChunks,
    /// With this output there are more bytes than a body may have.
    TooManyBytes,
    /// An output comes later behind the one before than a delay may be: it is cut, and ends only a reading that has to be
    /// whole.
    DelayTooLarge,
}

/// Why nothing is imported of a file.
#[derive(Clone, Copy, Debug, Drop, PartialEq, Eq)]
pub enum ImportFault {
    /// It begins as a compressed file does.
    Compressed,
    /// It has no form that is known here.
    NoKnownForm,
    /// A growth was refused.
    OutOfMemory,
}

impl fmt::Display for ImportFault {
    ghost use Rattle.std.specs.Prelude.{Some};
    ghost use Rattle.tape_import.specs.ImportedFile.{import_message};

    ghost output = { λ fault. Some (import_message fault) };

    fn fmt<W: fmt::Write>(&self, f: &mut fmt::Formatter<W>) -> fmt::Result {
        match *self {
            ImportFault::Compressed => write!(f, "recording is compressed"),
            ImportFault::NoKnownForm => write!(f, "recording of no known form"),
            ImportFault::OutOfMemory => write!(f, "out of memory"),
        }
    }
}

impl std::error::Error for ImportFault {}

impl From<AllocError> for ImportFault {
    ghost use Rattle.std.specs.Prelude.{◌≡◌};
    ghost use Rattle.tape_import.specs.declared.fault.ImportFault.TheVariants.{OutOfMemory};

    ghost from_gives = { λ _ fault. fault ≡ OutOfMemory };

    fn from(_refused: AllocError) -> ImportFault {
        ImportFault::OutOfMemory
    }
}
