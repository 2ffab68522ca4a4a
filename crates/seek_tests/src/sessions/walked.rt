//! Walks over the chunks of a strip, a line of each chunk.
use super::{Timed, opened};
use crate::lines::Lines;
use crate::strip::Strip;
use chunk_walk::{visit_all_chunks, visit_chunks};
use std::alloc::Global;
use std::io;
use std::io::{ErrorKind, Write};
use std::process::Abort;
use std::test::Fail;
use tape_core::Watched;
use tape_seek::{Edit, Session};

/// Bytes that stand, a `?` that asks, bytes that find the strip full, and a `?` that the byte before it quotes.
const FOUR: &[Timed<'static>] = &[("1", b"ab"), ("0.5", b"?c"), ("2", b"d\\"), ("0", b"?")];

/// Their lines, in a strip of three cells.
const LINES: [&[u8]; 4] = [
    b"0 1.000000 ... ab.\n",
    b"1 1.500000 ab. abc\n",
    b"2 3.500000 abc d..\n",
    b"3 3.500000 d.. d?.\n",
];

/// The lines of the chunks from one place up to and without another.
fn lines(alloc: Global, start: usize, end: usize) -> Result<Vec<u8>, Fail> {
    let mut text = Vec::new(alloc);
    for line in LINES.iter().take(end).skip(start) {
        text.extend_from_slice(line)?;
    }
    Ok(text)
}

/// After one moment and by another, the first chunk that is asked for and the one behind the last.
type Row = (Option<u64>, u64, usize, usize);

const ROWS: &[Row] = &[
    (None, u64::MAX, 0, 4),
    (None, 999_999, 0, 0),
    (None, 1_000_000, 0, 1),
    (Some(0), 1_500_000, 0, 2),
    (Some(1_000_000), 3_499_999, 1, 2),
    (Some(1_499_999), 3_500_000, 1, 4),
    (Some(1_500_000), u64::MAX, 2, 4),
    (Some(3_500_000), u64::MAX, 4, 4),
    (Some(3_500_000), 0, 4, 4),
];

/// Each row is walked in the session in which the rows before it were.
#[test]
fn chunks_between_moments(rt: HostRuntime) -> Result<(), Fail> {
    let alloc = rt.alloc();
    let mut session = opened(alloc, FOUR, 2, 3)?;
    for (from, to, start, end) in ROWS {
        let mut writer = Watched::new(Vec::new(alloc));
        visit_chunks(&mut session, *from, *to, &Lines { alloc }, &mut writer)?;
        let text = writer.into_inner();
        let wanted = lines(alloc, *start, *end)?;
        assert_eq!(rt;
            text.as_slice(),
            wanted.as_slice(),
            "after {from:?} by {to}"
        );
    }
    Ok(())
}

/// Walks over all chunks.
fn walked(alloc: Global, session: &mut Session<Strip>) -> Result<Vec<u8>, Fail> {
    let mut writer = Watched::new(Vec::new(alloc));
    visit_all_chunks(session, &Lines { alloc }, &mut writer)?;
    Ok(writer.into_inner())
}

/// Wherever the session stands before, a walk goes over all chunks, and stands behind the last.
#[test]
fn all_chunks(rt: HostRuntime) -> Result<(), Fail> {
    let alloc = rt.alloc();
    let mut session = opened(alloc, FOUR, 2, 3)?;
    let wanted = lines(alloc, 0, 4)?;
    for moment in [9_000_000, 0, 2_000_000] {
        session.play_to(moment)?;
        let text = walked(alloc, &mut session)?;
        assert_eq!(rt; text.as_slice(), wanted.as_slice(), "from {moment}");
        assert_eq!(rt;
            (session.frontier(), session.head(), session.log().len()),
            (4, 4, 0)
        );
    }
    Ok(())
}

const WITHOUT_THE_THIRD: &[u8] = b"0 1.000000 ... ab.\n1 1.500000 ab. abc\n2 1.500000 abc abc\n";

/// A walk goes over the recording as edited: without the quoting byte the last chunk asks.
#[test]
fn chunks_as_edited(rt: HostRuntime) -> Result<(), Fail> {
    let alloc = rt.alloc();
    let mut session = opened(alloc, FOUR, 2, 3)?;
    walked(alloc, &mut session)?;
    session.apply(Edit::Delete { from: 2, to: 3 })?;
    let text = walked(alloc, &mut session)?;
    assert_eq!(rt; text.as_slice(), WITHOUT_THE_THIRD);
    let mut none = opened(alloc, &[], 1, 2)?;
    let text = walked(alloc, &mut none)?;
    assert!(rt; text.is_empty(), "{text:?} of no chunks");
    Ok(())
}

/// A writer that takes so many bytes, and then fails.
#[derive(Drop)]
struct Narrow {
    taken: Vec<u8>,
    room: usize,
}

impl Write for Narrow {
    fn write(&mut self, buf: &[u8]) -> io::Result<usize> {
        if self.taken.len() >= self.room {
            return Err(io::Error::from(ErrorKind::StorageFull));
        }
        let count = buf.len().min(self.room - self.taken.len());
        self.taken.extend_from_slice(&buf[..count])?;
        Ok(count)
    }

    fn flush(&mut self) -> io::Result<()> {
        Ok(())
    }
}

/// Walks over all chunks with a writer that takes so many bytes: what it took, and how many chunks were played.
fn walked_narrow(rt: &impl Abort, alloc: Global, room: usize) -> Result<(Vec<u8>, usize), Fail> {
    let mut session = opened(alloc, FOUR, 2, 3)?;
    let taken = Vec::new(alloc);
    let mut writer = Watched::new(Narrow { taken, room });
    visit_all_chunks(&mut session, &Lines { alloc }, &mut writer)?;
    assert_eq!(rt; writer.failed(), room < 76, "room for {room}");
    Ok((writer.into_inner().taken, session.frontier()))
}

/// A line has 19 bytes. Where the writer fails in one, no chunk behind it is played.
#[test]
fn a_writer_that_fails(rt: HostRuntime) -> Result<(), Fail> {
    let alloc = rt.alloc();
    for (room, played) in [(0, 1), (18, 1), (19, 2), (40, 3), (75, 4), (76, 4)] {
        let mut wanted = lines(alloc, 0, 4)?;
        wanted.truncate(room);
        let (text, frontier) = walked_narrow(&rt, alloc, room)?;
        assert_eq!(rt;
            (text.as_slice(), frontier),
            (wanted.as_slice(), played),
            "room for {room}"
        );
    }
    Ok(())
}
