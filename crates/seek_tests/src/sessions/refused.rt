//! Refused growths. `tests/refused.py` runs these with the first, second, .. growth of memory refused, until none is,
//! and counts the lines `refused: WHAT`. After a refusal all is as before, and the same call then answers.
use crate::lines::Lines;
use crate::strip::{Setup, Strip};
use chunk_walk::visit_all_chunks;
use std::alloc::Global;
use std::process::Abort;
use std::rt::Runtime;
use std::test::Fail;
use tape_core::{Bytes, Recording, Watched, read_recording};
use tape_seek::{Edit, EditFault, Session};

/// Reads a recording; where memory is refused, once more.
fn read(rt: &impl Runtime<A = Global>, script: &[u8], timing: &[u8]) -> Result<Recording, Fail> {
    match read_recording(rt.alloc(), script, timing) {
        Ok(recording) => Ok(recording),
        Err(_) => {
            println!(rt; "refused: a recording")?;
            Ok(read_recording(rt.alloc(), script, timing)?)
        }
    }
}

/// Copies bytes; where memory is refused, once more.
fn bytes(rt: &impl Runtime<A = Global>, text: &[u8]) -> Result<Bytes, Fail> {
    match Bytes::copy_of(rt.alloc(), text) {
        Ok(bytes) => Ok(bytes),
        Err(_) => {
            println!(rt; "refused: bytes")?;
            Ok(Bytes::copy_of(rt.alloc(), text)?)
        }
    }
}

/// Chunks, bytes and length of a recording.
fn numbers(recording: &Recording) -> (usize, u64, u64) {
    let chunks = recording.chunks().len();
    (chunks, recording.body_len(), recording.length())
}

/// All that a session tells of itself.
#[derive(Clone, Copy, Debug, PartialEq, Eq)]
struct State {
    recording: (usize, u64, u64),
    log: usize,
    marks: (usize, usize, usize),
}

fn told_by(session: &Session<Strip>) -> State {
    State {
        recording: numbers(session.recording()),
        log: session.log().len(),
        marks: (session.frontier(), session.head(), session.held()),
    }
}

/// Opens a session of three cells, with a strip stored at every second count; where memory is refused, once more with
/// the recording that came back.
fn opened(
    rt: &(impl Runtime<A = Global> + Abort),
    recording: Recording,
) -> Result<Session<Strip>, Fail> {
    let before = numbers(&recording);
    let setup = Setup { size: 3 };
    match Session::open_with(rt.alloc(), recording, 2, setup) {
        Ok(session) => Ok(session),
        Err(back) => {
            println!(rt; "refused: open")?;
            assert_eq!(rt; numbers(&back), before);
            Ok(Session::open_with(rt.alloc(), back, 2, setup)?)
        }
    }
}

/// Four chunks, a second apart: a `?`, one behind a byte, bytes that fill the strip, and a `?` before one more.
fn four(rt: &(impl Runtime<A = Global> + Abort)) -> Result<Session<Strip>, Fail> {
    opened(rt, read(rt, b"\n?a?bc?d", b"1 1\n1 2\n1 2\n1 2\n")?)
}

/// All that is sent, and the cells, at each count of those chunks.
const WANTED: [(&[u8], &[u8]); 5] = [
    (b"", b"..."),
    (b"...", b"..."),
    (b"...a..", b"a.."),
    (b"...a..", b"abc"),
    (b"...a..abc", b"d.."),
];

/// Whether a seek goes to a count, and shows and has sent what is wanted there.
fn reaches(session: &mut Session<Strip>, count: usize) -> bool {
    let Some((sent, cells)) = WANTED.get(count) else {
        return false;
    };
    if count > session.recording().chunks().len() {
        return false;
    }
    match session.play_to_count(count) {
        Ok(view) => view.reports() == *sent && view.terminal().cells() == *cells,
        Err(_) => false,
    }
}

/// Goes to a count; where memory is refused, the head is back at the given count and all else as before, and so once
/// more.
fn sought(
    rt: &(impl Runtime<A = Global> + Abort),
    session: &mut Session<Strip>,
    count: usize,
    head: usize,
) -> Result<(), Fail> {
    let before = told_by(session);
    assert!(rt;
        count <= session.recording().chunks().len(),
        "a seek to {count}"
    );
    if session.play_to_count(count).is_err() {
        println!(rt; "refused: a seek to {count}")?;
        let (frontier, _, held) = before.marks;
        assert!(rt; count > frontier, "a seek below the frontier takes memory");
        let marks = (frontier, head, held);
        assert_eq!(rt; told_by(session), State { marks, ..before });
    }
    assert!(rt; reaches(session, count), "a seek to {count}");
    Ok(())
}

/// Opens a session and seeks to these counts, each with where a refusal puts the head. They end at the end.
fn check_seeks(
    rt: &(impl Runtime<A = Global> + Abort),
    counts: &[(usize, usize)],
) -> Result<(), Fail> {
    let mut session = four(rt)?;
    for (count, head) in counts {
        sought(rt, &mut session, *count, *head)?;
    }
    assert_eq!(rt; told_by(&session).marks, (4, 4, 3));
    Ok(())
}

/// Below the frontier, which the second reaches, no growth is left to be refused.
#[test]
fn refused_seeks(rt: HostRuntime) -> Result<(), Fail> {
    check_seeks(
        &rt,
        &[(1, 0), (4, 0), (3, 0), (0, 0), (2, 0), (1, 0), (4, 0)],
    )
}

/// At the last the head stands at 1, and a refusal puts it at the last stored strip.
#[test]
fn refused_seeks_past_a_stored_strip(rt: HostRuntime) -> Result<(), Fail> {
    check_seeks(&rt, &[(3, 0), (1, 0), (4, 2)])
}

/// Makes an edit; where memory is refused, once more with the edit that came back, of which nothing is left.
fn applied(
    rt: &(impl Runtime<A = Global> + Abort),
    session: &mut Session<Strip>,
    edit: Edit,
) -> Result<(), Fail> {
    let before = told_by(session);
    if let Err(refused) = session.apply(edit) {
        println!(rt; "refused: {:?}", refused.edit)?;
        let after = (refused.fault, told_by(session));
        assert_eq!(rt; after, (EditFault::OutOfMemory, before));
        session.apply(refused.edit)?;
    }
    assert_eq!(rt; session.log().len(), before.log.saturating_add(1));
    Ok(())
}

#[test]
fn refused_edits(rt: HostRuntime) -> Result<(), Fail> {
    let mut session = four(&rt)?;
    sought(&rt, &mut session, 4, 0)?;
    let insert = Edit::Insert {
        at: 4,
        delay: 7,
        bytes: bytes(&rt, b"new")?,
    };
    applied(&rt, &mut session, insert)?;
    let replace = Edit::Replace {
        at: 3,
        bytes: bytes(&rt, b"other")?,
    };
    applied(&rt, &mut session, replace)?;
    applied(&rt, &mut session, Edit::Delete { from: 1, to: 2 })?;
    let left = told_by(&session);
    assert_eq!(rt;
        (left.marks, left.recording),
        ((1, 0, 1), (4, 11, 3_000_007))
    );
    Ok(())
}

/// A line of each of the four chunks.
const LINES: &[u8] =
    b"0 1.000000 ... ...\n1 2.000000 ... a..\n2 3.000000 a.. abc\n3 4.000000 abc d..\n";

/// Room for all lines; where memory is refused, once more.
fn room(rt: &impl Runtime<A = Global>) -> Result<Vec<u8>, Fail> {
    match Vec::with_capacity(rt.alloc(), LINES.len()) {
        Ok(room) => Ok(room),
        Err(_) => {
            println!(rt; "refused: room for a writer")?;
            Ok(Vec::with_capacity(rt.alloc(), LINES.len())?)
        }
    }
}

/// Walks over all chunks, and tells whether memory was refused: then whole lines from the first on have gone out, and
/// recording and log are as before.
fn stops_early(
    rt: &(impl Runtime<A = Global> + Abort),
    session: &mut Session<Strip>,
) -> Result<bool, Fail> {
    let before = told_by(session);
    let alloc = rt.alloc();
    let mut writer = Watched::new(room(rt)?);
    let stopped = visit_all_chunks(session, &Lines { alloc }, &mut writer).is_err();
    let failed = writer.failed();
    let begun = writer.into_inner();
    if !stopped {
        assert_eq!(rt; (begun.as_slice(), failed), (LINES, false));
        return Ok(false);
    }
    println!(rt; "refused: a walk")?;
    assert!(rt; LINES.starts_with(begun.as_slice()), "{begun:?} went out");
    assert_eq!(rt;
        (begun.len() % 19, begun.len() < LINES.len(), failed),
        (0, true, false)
    );
    let after = told_by(session);
    assert_eq!(rt;
        (after.recording, after.log),
        (before.recording, before.log)
    );
    Ok(true)
}

/// What a walk keeps takes memory at each chunk.
#[test]
fn refused_walks(rt: HostRuntime) -> Result<(), Fail> {
    let mut session = four(&rt)?;
    if stops_early(&rt, &mut session)? {
        assert!(rt; !stops_early(&rt, &mut session)?, "refused twice");
    }
    assert_eq!(rt; told_by(&session).marks, (4, 4, 3));
    Ok(())
}
