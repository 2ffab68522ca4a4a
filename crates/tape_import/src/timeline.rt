//! Outputs become chunks, each due when it came.
ghost use Rattle.std.specs.Prelude.{◌≡◌, ◌≤◌, ◌<◌, None, OnErr, OnOk, Some, length};
ghost use Rattle.tape_core.specs.Seconds.{last_moment};
ghost use Rattle.tape_import.specs.Kept.{AreWithin};
ghost use Rattle.tape_import.specs.Outputs.{none_yet, output_fault, passed, reached, with_output};

use crate::fault::EventFault;
use std::alloc::{AllocError, Global};
use std::marker::Model;
use tape_core::limits::{LAST_MOMENT, LONGEST_BODY, LONGEST_CHUNK, LONGEST_DELAY, MOST_CHUNKS};
use tape_core::{Bytes, Chunk};

/// The outputs so far, as chunks: the moment that was reached, when the last chunk was due, how many delays were cut, the
/// number of the line, the entry or the record with the first of these, and how many bytes the chunks hold together.
#[derive(Drop)]
pub struct Timeline {
    chunks: Vec<Chunk>,
    moment: u64,
    due: u64,
    slow: u64,
    first_slow: Option<u64>,
    bytes: u64,
}

impl Model for Timeline {
    ghost use Rattle.tape_import.specs.Outputs.{Outputs};

    ghost Value = { Outputs };

    ghost use Rattle.tape_import.specs.Kept.{IsTimeline};

    ghost view = { λ t. record { chunks = t.chunks.items; moment = t.moment; due = t.due; slow = t.slow; first_slow = t.first_slow } };

    ghost invariant = { λ t. IsTimeline (record { chunks = t.chunks.items; moment = t.moment; due = t.due; slow = t.slow; first_slow = t.first_slow }) t.bytes };
}

impl Timeline {
    /// Nothing came yet. Takes no memory.
    pub fn new(alloc: Global) -> Timeline
        ensures { result ≡ none_yet }
    {
        Timeline {
            chunks: Vec::new(alloc),
            moment: 0,
            due: 0,
            slow: 0,
            first_slow: None,
            bytes: 0,
        }
    }

    /// Lets so many microseconds pass.
    pub fn pass(&mut self, us: u64)
        ensures { self.new ≡ passed us self.old }
    {
        self.moment = self.moment.saturating_add(us).min(LAST_MOMENT);
    }

    /// Waits for a moment, unless it has come.
    pub fn reach(&mut self, us: u64)
        ensures { self.new ≡ reached us self.old }
    {
        self.moment = self.moment.max(us.min(LAST_MOMENT));
    }

    /// The fault of an output of so many bytes, if it has one.
    pub fn fault_of(&self, len: usize) -> Option<EventFault>
        ensures { result ≡ output_fault self.now len }
    {
        if len == 0 {
            None
        } else if len > LONGEST_CHUNK {
            Some(EventFault::ChunkTooLong)
        } else if self.chunks.len() >= MOST_CHUNKS {
            Some(EventFault::TooManyChunks)
        } else if self.bytes + len as u64 > LONGEST_BODY {
            Some(EventFault::TooManyBytes)
        } else {
            None
        }
    }

    /// How many chunks there are.
    pub fn count(&self) -> u64
        ensures { result ≡ length self.now.chunks }
    {
        self.chunks.len() as u64
    }

    /// How many delays were cut.
    pub fn slow(&self) -> u64
        ensures { result ≡ self.now.slow }
    {
        self.slow
    }

    /// The number that was told with the first output whose delay was cut.
    pub fn first_slow(&self) -> Option<u64>
        ensures { result ≡ self.now.first_slow }
    {
        self.first_slow
    }

    /// The chunks, which are within the limits of a recording.
    pub fn into_chunks(self) -> Vec<Chunk>
        ensures chunks { result.items ≡ self.chunks }
        ensures within { AreWithin self.chunks }
    {
        self.chunks
    }

    /// Takes an output that has no fault at this moment, of the line, the entry or the record of this number. Nothing
    /// changes where memory is refused.
    pub fn take(&mut self, number: u64, bytes: Bytes) -> Result<(), AllocError>
        requires { output_fault self.old (length bytes) ≡ None }
        ensures ok { OnOk result (self.new ≡ with_output number bytes self.old) }
        ensures err { OnErr result (self.new ≡ self.old) }
    {
        if bytes.is_empty() {
            return Ok(());
        }
        let waited = self.moment - self.due;
        let len = bytes.len() as u64;
        self.chunks.push(Chunk {
            delay: waited.min(LONGEST_DELAY),
            bytes,
        })?;
        self.bytes += len;
        self.due = self.moment;
        if waited > LONGEST_DELAY {
            self.slow += 1;
            self.first_slow = self.first_slow.or(Some(number));
        }
        Ok(())
    }
}
