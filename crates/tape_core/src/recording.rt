//! A recording, and when its chunks are due.
ghost use Rattle.std.specs.Prelude.{◌≡◌, ◌<◌, ◌≤◌, All, IfOk, length};
ghost use Rattle.tape_core.specs.Tape.{body_len, fits, longest_body, longest_delay, most_chunks};
ghost use Rattle.tape_core.specs.Kept.{AreDueTimes};
ghost use Rattle.tape_core.specs.Due.{due_count, due_time, play_length};

use crate::bytes::Bytes;
use crate::chunk::Chunk;
use std::alloc::{AllocError, Global};
use std::marker::Model;

mod editing;

/// A recording: the header (the typescript's first line with its LF), the chunks that the timing
/// counts, and the trailer (all bytes after them). script(1).
#[derive(Debug, Drop)]
pub struct Recording {
    header: Bytes,
    chunks: Vec<Chunk>,
    trailer: Bytes,
    dues: Vec<u64>,
    bytes: u64,
}

impl Model for Recording {
    ghost use Rattle.tape_core.specs.Tape.{Tape};

    ghost Value = { Tape };

    ghost use Rattle.tape_core.specs.Kept.{IsSummed};

    ghost view = { λ r. record { header = r.header; chunks = r.chunks.items; trailer = r.trailer } };

    ghost invariant = { λ r. IsSummed (record { header = r.header; chunks = r.chunks.items; trailer = r.trailer }) r.dues.items r.bytes };
}

impl Recording {
    /// A recording of these parts, with its due times added up once: the header, the chunks and the trailer.
    pub fn from_parts(
        alloc: Global,
        header: Bytes,
        chunks: Vec<Chunk>,
        trailer: Bytes,
    ) -> Result<Self, AllocError>
        requires { fits (record { header = header; chunks = chunks.items; trailer = trailer }) }
        ensures { IfOk result
            (λ r. r ≡ record { header = header; chunks = chunks.items; trailer = trailer }) }
    {
        let dues = due_times(alloc, chunks.as_slice())?;
        let bytes = chunk_bytes(chunks.as_slice());
        Ok(Recording {
            header,
            chunks,
            trailer,
            dues,
            bytes,
        })
    }

    /// The typescript's first line with its LF, whatever it says.
    pub fn header(&self) -> &[u8]
        ensures { result.now ≡ self.now.header }
    {
        self.header.as_slice()
    }

    /// The chunks in order.
    pub fn chunks(&self) -> &[Chunk]
        ensures chunks { result.now ≡ self.now.chunks }
        ensures fitting { fits self.now }
    {
        self.chunks.as_slice()
    }

    /// All bytes after the last chunk, such as the closing line that `script` writes.
    pub fn trailer(&self) -> &[u8]
        ensures { result.now ≡ self.now.trailer }
    {
        self.trailer.as_slice()
    }

    /// How many bytes the chunks hold together.
    pub fn body_len(&self) -> u64
        ensures sum { result ≡ body_len self.now.chunks }
        ensures within { result ≤ longest_body }
    {
        self.bytes
    }

    /// The sum of all delays, in microseconds.
    pub fn length(&self) -> u64
        ensures { result ≡ play_length self.now.chunks }
    {
        self.dues.last().copied().unwrap_or(0)
    }

    /// The moment at which chunk `i` is due, in microseconds: the sum of delays 0 to `i` (ours).
    pub fn due_time(&self, i: usize) -> u64
        requires { i < length self.now.chunks }
        ensures { result ≡ due_time self.now.chunks i }
    {
        self.dues[i]
    }

    /// How many chunks are due by the moment, in microseconds. Logarithmic in their number (ours).
    pub fn due_count(&self, moment: u64) -> usize
        ensures count { result ≡ due_count self.now.chunks moment }
        ensures within { result ≤ length self.now.chunks }
    {
        self.dues.partition_point(|due| *due <= moment)
    }
}

/// When each chunk is due.
fn due_times(alloc: Global, chunks: &[Chunk]) -> Result<Vec<u64>, AllocError>
    requires few { length chunks.now ≤ most_chunks }
    requires delays { All (λ c. c.delay ≤ longest_delay) chunks.now }
    ensures { IfOk result (λ dues. AreDueTimes chunks.now dues.items) }
{
    let mut dues = Vec::with_capacity(alloc, chunks.len())?;
    let mut due: u64 = 0;
    for chunk in chunks {
        due += chunk.delay;
        dues.push(due)?;
    }
    Ok(dues)
}

/// How many bytes the chunks hold together.
fn chunk_bytes(chunks: &[Chunk]) -> u64
    requires { body_len chunks.now ≤ longest_body }
    ensures { result ≡ body_len chunks.now }
{
    let mut bytes: u64 = 0;
    for chunk in chunks {
        bytes += chunk.bytes.len() as u64;
    }
    bytes
}
