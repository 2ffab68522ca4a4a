//! A writer that fails, and what writing to it comes to.
use std::alloc::Global;
use std::io;
use std::io::{ErrorKind, Write};
use tape_core::{Fault, Watched};

/// A writer that takes at most three bytes a call, and that fails once it holds so many. A flush fails where it is to.
#[derive(Drop)]
pub struct SmallWriter {
    taken: Vec<u8>,
    room: usize,
    flush_fails: bool,
}

/// Such a writer that holds nothing yet.
pub fn small_writer(alloc: Global, room: usize, flush_fails: bool) -> SmallWriter {
    SmallWriter {
        taken: Vec::new(alloc),
        room,
        flush_fails,
    }
}

/// What writing a text to such a writer came to.
#[derive(Drop)]
pub struct Writing {
    answer: Result<(), Fault>,
    failed: bool,
    writer: SmallWriter,
}

impl Writing {
    pub fn of(answer: Result<(), Fault>, writer: Watched<SmallWriter>) -> Writing {
        Writing {
            answer,
            failed: writer.failed(),
            writer: writer.into_inner(),
        }
    }

    /// What it answered, whether the writer has failed, and what that took.
    pub fn told(&self) -> (Result<(), Fault>, bool, &[u8]) {
        (self.answer, self.failed, self.writer.taken.as_slice())
    }

    /// What that is to be where this is the whole text.
    pub fn wanted<'a>(&self, whole: &'a [u8]) -> (Result<(), Fault>, bool, &'a [u8]) {
        let taken = &whole[..self.writer.room.min(whole.len())];
        if self.writer.room < whole.len() || self.writer.flush_fails {
            (Err(Fault::WriteFault), true, taken)
        } else {
            (Ok(()), false, taken)
        }
    }
}

impl Write for SmallWriter {
    fn write(&mut self, buf: &[u8]) -> io::Result<usize> {
        if self.taken.len() >= self.room {
            return Err(io::Error::from(ErrorKind::StorageFull));
        }
        let count = buf.len().min(3).min(self.room - self.taken.len());
        self.taken.extend_from_slice(&buf[..count])?;
        Ok(count)
    }

    fn flush(&mut self) -> io::Result<()> {
        if self.flush_fails {
            return Err(io::Error::from(ErrorKind::Other));
        }
        Ok(())
    }
}
