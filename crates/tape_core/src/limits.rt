//! The limits of a recording, and the greatest moment (ours).

/// Chunks of a recording.
pub const MOST_CHUNKS: usize = 1_000_000;

/// Bytes of a chunk.
pub const LONGEST_CHUNK: usize = 1_048_576;

/// Bytes of all chunks together.
pub const LONGEST_BODY: u64 = 1_073_741_824;

/// A delay, in microseconds: a million seconds.
pub const LONGEST_DELAY: u64 = 1_000_000_000_000;

/// A moment, in microseconds.
pub const LAST_MOMENT: u64 = 1_000_000_000_000_000_000;
