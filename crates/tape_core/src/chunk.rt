//! One output of the recorded program.
use crate::bytes::Bytes;

/// A chunk: the microseconds since the chunk before it (since the start for chunk 0), and the bytes
/// that the terminal then got. script(1).
#[derive(Debug, Drop)]
pub struct Chunk {
    pub delay: u64,
    pub bytes: Bytes,
}
