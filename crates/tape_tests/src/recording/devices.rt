use std::alloc::Global;
use std::io;
use std::io::{ErrorKind, Read, Write};
use std::test::Fail;
use tape_core::{Fault, Watched, slurp};

/// A reader that tells one byte a call, and whose call of a number fails with a kind.
#[derive(Drop)]
struct SlowReader<'a> {
    left: &'a [u8],
    calls: usize,
    failing: usize,
    kind: ErrorKind,
}

impl Read for SlowReader<'_> {
    fn read(&mut self, buf: &mut [u8]) -> io::Result<usize> {
        let call = self.calls;
        self.calls = call.saturating_add(1);
        if call == self.failing {
            return Err(io::Error::from(self.kind));
        }
        match (self.left, buf) {
            ([byte, rest @ ..], [place, ..]) => {
                *place = *byte;
                self.left = rest;
                Ok(1)
            }
            _ => Ok(0),
        }
    }
}

/// What the failing call of a writer does.
#[derive(Clone, Copy, PartialEq, Eq)]
enum Failing {
    Errs,
    TakesNothing,
    Never,
}

/// A writer that takes one byte a call, and whose call of a number fails. A flush fails where it is to.
#[derive(Drop)]
struct SlowWriter {
    taken: Vec<u8>,
    calls: usize,
    at: usize,
    failing: Failing,
    flush_fails: bool,
}

impl Write for SlowWriter {
    fn write(&mut self, buf: &[u8]) -> io::Result<usize> {
        let call = self.calls;
        self.calls = call.saturating_add(1);
        if call == self.at && self.failing == Failing::Errs {
            return Err(io::Error::from(ErrorKind::Interrupted));
        }
        if call == self.at && self.failing == Failing::TakesNothing {
            return Ok(0);
        }
        match buf {
            [byte, ..] => {
                self.taken.push(*byte)?;
                Ok(1)
            }
            [] => Ok(0),
        }
    }

    fn flush(&mut self) -> io::Result<()> {
        if self.flush_fails {
            return Err(io::Error::from(ErrorKind::Other));
        }
        Ok(())
    }
}

fn slow_writer(alloc: Global, at: usize, failing: Failing) -> SlowWriter {
    SlowWriter {
        taken: Vec::new(alloc),
        calls: 0,
        at,
        failing,
        flush_fails: false,
    }
}

#[test]
fn slurp_reads_to_the_end(rt: HostRuntime) -> Result<(), Fail> {
    for text in [b"".as_slice(), b"a", b"abc\n"] {
        let mut reader = Watched::new(SlowReader {
            left: text,
            calls: 0,
            failing: usize::MAX,
            kind: ErrorKind::Other,
        });
        assert!(rt; !reader.failed(), "a reader that was not called");
        let told = slurp(rt.alloc(), &mut reader)?;
        assert_eq!(rt; told.as_slice(), text);
        assert!(rt; !reader.failed(), "a reader that did not fail");
    }
    let mut long = Watched::new(io::repeat(b'x').take(200_000));
    assert_eq!(rt; slurp(rt.alloc(), &mut long)?.len(), 200_000);
    Ok(())
}

#[test]
fn slurp_tells_a_read_fault(rt: HostRuntime) {
    for failing in 0..4usize {
        for kind in [
            ErrorKind::Other,
            ErrorKind::Interrupted,
            ErrorKind::UnexpectedEof,
        ] {
            let mut reader = Watched::new(SlowReader {
                left: b"abc",
                calls: 0,
                failing,
                kind,
            });
            let told = slurp(rt.alloc(), &mut reader);
            assert_eq!(rt;
                (told.err(), reader.failed()),
                (Some(Fault::ReadFault), true),
                "at call {failing}"
            );
            let calls = reader.into_inner().calls;
            assert_eq!(rt; calls, failing.saturating_add(1), "no fault is retried");
        }
    }
}

#[test]
fn give_writes_all_the_bytes(rt: HostRuntime) -> Result<(), Fail> {
    let mut writer = Watched::new(slow_writer(rt.alloc(), 0, Failing::Never));
    assert!(rt; !writer.written(), "a writer that was given nothing");
    writer.give(b"");
    assert!(rt; !writer.written(), "a writer that was given no bytes");
    writer.give_all(&[b"a", b"", b"b"]);
    writer.give(b"c");
    writer.ask()?;
    assert!(rt; writer.written(), "a writer that has taken a byte");
    assert!(rt; !writer.failed(), "a writer that did not fail");
    writer.settle()?;
    assert!(rt; !writer.failed(), "a writer that did not fail at its flush");
    assert_eq!(rt; writer.into_inner().taken.as_slice(), b"abc".as_slice());
    Ok(())
}

#[test]
fn a_writer_that_failed_is_left_alone(rt: HostRuntime) {
    for at in 0..3usize {
        for failing in [Failing::Errs, Failing::TakesNothing] {
            let mut writer = Watched::new(slow_writer(rt.alloc(), at, failing));
            writer.give(b"abc");
            assert_eq!(rt;
                (writer.ask(), writer.failed(), writer.written()),
                (Err(Fault::WriteFault), true, at > 0),
                "at call {at}"
            );
            writer.give(b"d");
            writer.give_all(&[b"e", b"f"]);
            assert_eq!(rt; writer.settle(), Err(Fault::WriteFault), "at call {at}");
            let inner = writer.into_inner();
            assert_eq!(rt; inner.calls, at.saturating_add(1), "no fault is retried");
            assert_eq!(rt; inner.taken.len(), at, "what went out is a beginning");
        }
    }
}

#[test]
fn settle_tells_a_failed_flush(rt: HostRuntime) -> Result<(), Fail> {
    let mut inner = slow_writer(rt.alloc(), 0, Failing::Never);
    inner.flush_fails = true;
    let mut writer = Watched::new(inner);
    writer.give(b"ab");
    writer.ask()?;
    let answer = writer.settle();
    assert_eq!(rt; (answer, writer.failed()), (Err(Fault::WriteFault), true));
    assert_eq!(rt; writer.into_inner().taken.as_slice(), b"ab".as_slice());
    Ok(())
}
