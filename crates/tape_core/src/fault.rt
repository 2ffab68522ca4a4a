//! What can be wrong with a pair of files, with memory or with a device, and the text that people see.

use std::alloc::AllocError;
use std::fmt;

/// Why a recording can't be read, or a job can't be done.
///
/// Lines of the timing file are counted from 1, blank ones among them; chunks are counted from 0.
#[derive(Clone, Copy, Debug, Drop, PartialEq, Eq)]
pub enum Fault {
    /// The script has no line feed, so it has no header.
    NoHeader,
    /// The first field of this timing line isn't a delay.
    BadDelay(u64),
    /// This timing line hasn't exactly two fields, or its second one isn't a count.
    BadCount(u64),
    /// This timing line begins with a letter, as the lines of the multi-stream format do.
    MultiStream(u64),
    /// The delay of this timing line is above the limit.
    DelayTooLarge(u64),
    /// The count of this timing line is above the limit of a chunk.
    ChunkTooLong(u64),
    /// This timing line is one chunk too many.
    TooManyChunks(u64),
    /// With this timing line the counts add up to more than a body may have.
    TooManyBytes(u64),
    /// The script ends before the last byte of this chunk.
    ScriptShort(u64),
    /// A growth was refused.
    OutOfMemory,
    /// A reader failed.
    ReadFault,
    /// A writer failed, or took nothing of a piece that wasn't empty.
    WriteFault,
}

impl fmt::Display for Fault {
    ghost use Rattle.std.specs.Prelude.{Some};
    ghost use Rattle.tape_core.specs.Faults.{fault_message};

    ghost output = { λ fault. Some (fault_message fault) };

    fn fmt<W: fmt::Write>(&self, f: &mut fmt::Formatter<W>) -> fmt::Result {
        match *self {
            Fault::NoHeader => write!(f, "typescript has no header line"),
            Fault::BadDelay(line) => write!(f, "timing line {line}: bad delay"),
            Fault::BadCount(line) => write!(f, "timing line {line}: bad count"),
            Fault::MultiStream(line) => write!(f, "timing line {line}: multi-stream format"),
            Fault::DelayTooLarge(line) => write!(f, "timing line {line}: delay too large"),
            Fault::ChunkTooLong(line) => write!(f, "timing line {line}: chunk too long"),
            Fault::TooManyChunks(line) => write!(f, "timing line {line}: too many chunks"),
            Fault::TooManyBytes(line) => write!(f, "timing line {line}: too many bytes"),
            Fault::ScriptShort(chunk) => write!(f, "typescript ends inside chunk {chunk}"),
            Fault::OutOfMemory => write!(f, "out of memory"),
            Fault::ReadFault => write!(f, "read fault"),
            Fault::WriteFault => write!(f, "write fault"),
        }
    }
}

impl std::error::Error for Fault {}

impl From<AllocError> for Fault {
    ghost use Rattle.std.specs.Prelude.{◌≡◌};
    ghost use Rattle.tape_core.specs.declared.fault.Fault.TheVariants.{OutOfMemory};

    ghost from_gives = { λ _ fault. fault ≡ OutOfMemory };

    fn from(_refused: AllocError) -> Fault {
        Fault::OutOfMemory
    }
}
