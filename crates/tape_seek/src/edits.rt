//! Edits of a recording, and why one is refused.
use tape_core::Bytes;

/// One change of a recording. Places are those of chunks, counted from 0; delays are microseconds (ours).
#[derive(Debug, Drop)]
pub enum Edit {
    /// A chunk comes in before chunk `at`, at the end where `at` is their number.
    Insert { at: usize, delay: u64, bytes: Bytes },
    /// The chunks from `from` up to and without `to` go, delays and all.
    Delete { from: usize, to: usize },
    /// Chunk `at` gets other bytes and keeps its delay.
    Replace { at: usize, bytes: Bytes },
    /// Chunk `at` gets another delay and keeps its bytes.
    Retime { at: usize, delay: u64 },
    /// Each delay above `max` becomes `max`.
    Cap { max: u64 },
}

/// Why an edit or a request line is refused, in the order in which they are judged (ours).
#[derive(Debug, Clone, Copy, PartialEq, Eq)]
pub enum EditFault {
    /// E1: a place past the end.
    NoSuchChunk,
    /// E2: a delay above 10^12 microseconds.
    DelayTooLarge,
    /// E3: more than 1,048,576 bytes in a chunk.
    ChunkTooLong,
    /// E4: a chunk too many for a recording of 1,000,000.
    TooManyChunks,
    /// E5: the body would exceed 1,073,741,824 bytes.
    TooManyBytes,
    /// E6: a range that is empty, or goes past the end.
    BadRange,
    /// E7: memory was refused.
    OutOfMemory,
    /// E8: a line of no known form.
    BadLine,
}
