//! Edits of a recording. The due times behind the index of an edit are added up again, which takes
//! time linear in the chunks there.
ghost use Rattle.std.specs.Prelude.{◌≡◌, ◌+◌, ◌<◌, ◌≤◌, ◌++◌, ℕ, All, IfErr, OnErr, OnOk, drop, length, map, slice_index, take};
ghost use Rattle.tape_core.specs.Edited.{capped, capped_chunk, inserted, removed, replaced, retimed};
ghost use Rattle.tape_core.specs.Due.{due_time};
ghost use Rattle.tape_core.specs.Kept.{AreDueTimes};
ghost use Rattle.tape_core.specs.Tape.{body_len, fits, longest_body, longest_chunk, longest_delay, most_chunks};

use super::{Recording, chunk_bytes};
use crate::bytes::Bytes;
use crate::chunk::Chunk;

impl Recording {
    /// Puts the chunk before chunk `at`, or at the end where `at` is the number of chunks. For want of
    /// memory the chunk comes back, and nothing has changed (ours).
    pub fn insert(&mut self, at: usize, chunk: Chunk) -> Result<(), Chunk>
        requires index { at ≤ length self.old.chunks }
        requires few { length self.old.chunks < most_chunks }
        requires delay { chunk.delay ≤ longest_delay }
        requires len { length chunk.bytes ≤ longest_chunk }
        requires bytes { body_len self.old.chunks + length chunk.bytes ≤ longest_body }
        ensures ok { OnOk result (self.new ≡ inserted at chunk self.old) }
        ensures err { OnErr result (self.new ≡ self.old) }
        ensures returned { IfErr result (λ back. back ≡ chunk) }
        ensures fitting { fits self.new }
    {
        if self.dues.push(0).is_err() {
            return Err(chunk);
        }
        let bytes = chunk.bytes.len() as u64;
        if let Err(refused) = self.chunks.insert(at, chunk) {
            self.dues.truncate(self.chunks.len());
            return Err(refused.value);
        }
        self.bytes += bytes;
        add_up(&mut self.dues, &self.chunks, at);
        Ok(())
    }

    /// Takes the chunks from `from` up to and without `to` out, delays and all. Takes no memory (ours).
    pub fn remove(&mut self, from: usize, to: usize)
        requires some { from < to }
        requires within { to ≤ length self.old.chunks }
        ensures removed { self.new ≡ removed from to self.old }
        ensures fitting { fits self.new }
    {
        self.bytes -= chunk_bytes(&self.chunks[from..to]);
        remove_range(&mut self.chunks, from, to);
        self.dues.truncate(self.chunks.len());
        add_up(&mut self.dues, &self.chunks, from);
    }

    /// Gives chunk `at` other bytes. Takes no memory (ours).
    pub fn replace(&mut self, at: usize, bytes: Bytes)
        requires index { at < length self.old.chunks }
        requires len { length bytes ≤ longest_chunk }
        requires bytes { body_len (replaced at bytes self.old).chunks ≤ longest_body }
        ensures replaced { self.new ≡ replaced at bytes self.old }
        ensures fitting { fits self.new }
    {
        let chunk = &mut self.chunks[at];
        self.bytes -= chunk.bytes.len() as u64;
        self.bytes += bytes.len() as u64;
        chunk.bytes = bytes;
    }

    /// Gives chunk `at` another delay, in microseconds. Takes no memory (ours).
    pub fn retime(&mut self, at: usize, delay: u64)
        requires index { at < length self.old.chunks }
        requires delay { delay ≤ longest_delay }
        ensures retimed { self.new ≡ retimed at delay self.old }
        ensures fitting { fits self.new }
    {
        self.chunks[at].delay = delay;
        add_up(&mut self.dues, &self.chunks, at);
    }

    /// Lowers each delay above `max`, in microseconds, to `max`. Takes no memory. Ours: what
    /// `scriptreplay --maxdelay` does as it plays.
    pub fn cap(&mut self, max: u64)
        requires { max ≤ longest_delay }
        ensures capped { self.new ≡ capped max self.old }
        ensures fitting { fits self.new }
    {
        cap_delays(&mut self.chunks, max);
        add_up(&mut self.dues, &self.chunks, 0);
    }
}

/// Adds up the due times of the chunks from an index on. Those before it are right already.
fn add_up(dues: &mut [u64], chunks: &[Chunk], from: usize)
    requires one_each { length dues.old ≡ length chunks.now }
    requires index { from ≤ length chunks.now }
    requires few { length chunks.now ≤ most_chunks }
    requires delays { All (λ c. c.delay ≤ longest_delay) chunks.now }
    requires before { (i : ℕ) → i < from → slice_index dues.old i ≡ due_time chunks.now i }
    ensures { AreDueTimes chunks.now dues.new }
{
    let mut due = if from == 0 { 0 } else { dues[from - 1] };
    for i in from..chunks.len() {
        due += chunks[i].delay;
        dues[i] = due;
    }
}

/// Takes the chunks from `from` up to and without `to` out.
fn remove_range(chunks: &mut Vec<Chunk>, from: usize, to: usize)
    requires order { from ≤ to }
    requires within { to ≤ length chunks.old.items }
    ensures { chunks.new.items ≡ take from chunks.old.items ++ drop to chunks.old.items }
{
    drop(chunks.drain(from..to));
}

/// Lowers each delay above `max` to `max`.
fn cap_delays(chunks: &mut [Chunk], max: u64)
    ensures { chunks.new ≡ map (capped_chunk max) chunks.old }
{
    for chunk in chunks.iter_mut() {
        chunk.delay = chunk.delay.min(max);
    }
}
