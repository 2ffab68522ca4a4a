//! Buffered writers, and whether whoever reads standard output is gone.

ghost use Rattle.std.specs.Prelude.{◌≡◌, IfErr, IfOk, false};
ghost use Rattle.tape_core.specs.Devices.{has_failed, has_written};

use crate::stop::FileStop;
use std::io;
use std::io::{BufWriter, ErrorKind, Write};
use tape_core::Watched;

/// How many bytes are held back before they are written.
const HELD_BACK: usize = 65536;

/// A writer behind a buffer.
pub fn buffered<R: AllocGlobal, W: Write + Drop>(
    rt: &R,
    writer: W,
) -> Result<Watched<BufWriter<W>>, FileStop>
    ensures sound { IfOk result (λ out. has_failed out ≡ false) }
    ensures unwritten { IfOk result (λ out. has_written out ≡ false) }
    ensures stop { IfErr result (λ stop. stop ≡ FileStop.Memory) }
{
    match BufWriter::with_capacity(rt.alloc(), HELD_BACK, writer) {
        Ok(writer) => Ok(Watched::new(writer)),
        Err(_) => Err(FileStop::Memory),
    }
}

/// The writer behind a buffer. What a failed write left in the buffer is dropped: no fault is retried.
pub fn released<W: Write + Drop>(writer: Watched<BufWriter<W>>) -> W {
    let (inner, _unwritten) = writer.into_inner().into_parts();
    inner
}

/// A writer, and whether whoever reads it is gone.
#[derive(Drop)]
pub struct Outlet<W> {
    inner: W,
    closed: bool,
}

impl<W> Outlet<W> {
    /// Stands round a writer that has yet to be used.
    pub fn new(inner: W) -> Outlet<W> {
        Outlet {
            inner,
            closed: false,
        }
    }

    /// Whether the last write has failed since nobody reads.
    pub fn is_closed(&self) -> bool {
        self.closed
    }
}

impl<W: Write> Write for Outlet<W> {
    ghost contents = { λ outlet. W.contents outlet.inner };

    fn write(&mut self, buf: &[u8]) -> io::Result<usize> {
        let answer = self.inner.write(buf);
        if let Err(error) = &answer {
            self.closed = error.kind() == ErrorKind::BrokenPipe;
        }
        answer
    }

    fn flush(&mut self) -> io::Result<()> {
        self.inner.flush()
    }
}
