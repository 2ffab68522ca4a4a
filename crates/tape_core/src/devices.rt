//! Readers and writers that are watched: whoever holds one can ask whether it has failed.
//!
//! No fault is retried. After a fault the device is left alone: each call here asks for one that hasn't failed.

ghost use Rattle.std.specs.Prelude.{◌≡◌, ◌<◌, ◌≤◌, true, false, List, ℕ, [], length, map, take, vec_len, OnOk, IfOk, IfErr, OnErr, is_err};
ghost use Rattle.tape_core.specs.Devices.{inner_of, has_failed, has_written, is_flushed, ToldAll, StopsReading, Took, TookPart, Puts, Gave, joined};
ghost use Rattle.tape_core.specs.declared.devices.Watched.{Watched};
ghost use Rattle.tape_core.specs.Steps.{Told};

use crate::fault::Fault;
use crate::laws::gives_join;
use std::alloc::{AllocError, Global};
use std::io::{Read, Write};

/// How many bytes `slurp` asks a reader for at a time.
const PIECE: usize = 65536;

/// A reader or a writer, whether it has failed, whether a flush of it, behind which nothing was put, didn't, and whether
/// it has taken a byte.
#[derive(Drop)]
pub struct Watched<T> {
    inner: T,
    failed: bool,
    flushed: bool,
    written: bool,
}

impl<T> Watched<T> {
    /// Stands round a reader or a writer that has yet to be used.
    pub fn new(inner: T) -> Watched<T>
        ensures inner { inner_of result ≡ inner }
        ensures sound { has_failed result ≡ false }
        ensures unflushed { is_flushed result ≡ false }
        ensures unwritten { has_written result ≡ false }
    {
        Watched {
            inner,
            failed: false,
            flushed: false,
            written: false,
        }
    }

    /// Whether a call of the inner one has failed, or a write of a nonempty piece has taken nothing.
    pub fn failed(&self) -> bool
        ensures { result ≡ has_failed self.now }
    {
        self.failed
    }

    /// Whether the writer has taken a byte.
    pub fn written(&self) -> bool
        ensures { result ≡ has_written self.now }
    {
        self.written
    }

    /// The reader or the writer that stood inside.
    pub fn into_inner(self) -> T
        ensures { result ≡ inner_of self }
    {
        self.inner
    }
}

impl<R: Read> Watched<R> {
    /// Asks the reader once. No byte means the end.
    fn read_some(&mut self, piece: &mut [u8]) -> Result<usize, Fault>
        requires sound { has_failed self.old ≡ false }
        requires room { 0 < length piece.old }
        ensures ok { IfOk result (λ count. Told R.remaining self.old self.new piece.new count) }
        ensures fault { IfErr result (λ fault. fault ≡ Fault.ReadFault) }
        ensures failed { has_failed self.new ≡ is_err result }
    {
        let answer = self.inner.read(piece);
        self.failed = answer.is_err();
        answer.map_err(|_| Fault::ReadFault)
    }
}

impl<W: Write> Watched<W> {
    /// Gives the writer the bytes. One that has failed takes no more, and `settle` tells of it.
    #[inline]
    pub fn give(&mut self, bytes: &[u8])
        ensures { Gave W.contents self.old self.new bytes.now }
    {
        if !self.failed {
            let _ = self.put(bytes);
        }
    }

    /// Gives the writer the pieces, one after another.
    pub fn give_all(&mut self, pieces: &[&[u8]])
        ensures { Gave W.contents self.old self.new (joined (map (λ piece. piece.now) pieces.now)) }
    {
        gives_join::<W>();
        for bytes in pieces {
            self.give(bytes);
        }
    }

    /// Tells whether all that was given since the writer was known to be sound was taken.
    pub fn ask(&self) -> Result<(), Fault>
        ensures puts { (start : Watched W) (text : List ℕ)
            → Gave W.contents start self.now text → Puts W.contents start self.now text result }
        ensures sound { OnOk result (has_failed self.now ≡ false) }
    {
        if self.failed {
            return Err(Fault::WriteFault);
        }
        Ok(())
    }

    /// Tells the same, and flushes where all was taken.
    pub fn settle(&mut self) -> Result<(), Fault>
        ensures puts { (start : Watched W) (text : List ℕ)
            → Gave W.contents start self.old text → Puts W.contents start self.new text result }
        ensures flushed { OnOk result (is_flushed self.new ≡ true) }
    {
        self.ask()?;
        self.finish()
    }

    /// Writes all the bytes. After a write fault a beginning of them has gone out.
    fn put(&mut self, bytes: &[u8]) -> Result<(), Fault>
        requires { has_failed self.old ≡ false }
        ensures puts { Puts W.contents self.old self.new bytes.now result }
        ensures unflushed { is_flushed self.new ≡ false }
    {
        self.flushed = false;
        let mut rest = bytes;
        while !rest.is_empty() {
            let taken = self.write_some(rest)?;
            rest = &rest[taken..];
        }
        Ok(())
    }

    /// Flushes what the writer may hold back. It writes nothing of its own.
    fn finish(&mut self) -> Result<(), Fault>
        requires { has_failed self.old ≡ false }
        ensures puts { Puts W.contents self.old self.new [] result }
        ensures flushed { OnOk result (is_flushed self.new ≡ true) }
        ensures unflushed { OnErr result (is_flushed self.new ≡ false) }
    {
        let answer = self.inner.flush();
        self.flushed = answer.is_ok();
        self.failed = !self.flushed;
        answer.map_err(|_| Fault::WriteFault)
    }

    /// Offers the writer a nonempty piece once, and tells how many bytes it took.
    fn write_some(&mut self, piece: &[u8]) -> Result<usize, Fault>
        requires sound { has_failed self.old ≡ false }
        requires nonempty { 0 < length piece.now }
        ensures unflushed { is_flushed self.new ≡ is_flushed self.old }
        ensures taken { IfOk result (λ count. (0 < count) × (count ≤ length piece.now)) }
        ensures ok { IfOk result
            (λ count. Took W.contents self.old self.new (take count piece.now)) }
        ensures fault { IfErr result (λ fault. fault ≡ Fault.WriteFault) }
        ensures stopped { OnErr result (TookPart W.contents self.old self.new [] true) }
    {
        match self.inner.write(piece) {
            Ok(count) if count > 0 => {
                self.written = true;
                Ok(count)
            }
            _ => {
                self.failed = true;
                Err(Fault::WriteFault)
            }
        }
    }
}

/// A vector of this many zeros.
fn zeros(alloc: Global, len: usize) -> Result<Vec<u8>, AllocError>
    ensures { IfOk result (λ zeros. vec_len zeros ≡ len) }
{
    vec![in alloc; 0; len]
}

/// Reads to the end.
///
/// A reader that never ends is left where no longer text can be kept: that is want of memory.
pub fn slurp<R: Read>(alloc: Global, reader: &mut Watched<R>) -> Result<Vec<u8>, Fault>
    requires { has_failed reader.old ≡ false }
    ensures ok { IfOk result (λ text. ToldAll R.remaining reader.old reader.new text.items) }
    ensures fault { IfErr result (λ fault. StopsReading fault (has_failed reader.new)) }
{
    let mut text = Vec::new(alloc);
    let mut piece = zeros(alloc, PIECE)?;
    loop {
        let count = reader.read_some(&mut piece)?;
        if count == 0 {
            return Ok(text);
        }
        text.extend_from_slice(&piece[..count])?;
    }
}
