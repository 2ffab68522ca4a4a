//! Large inputs: what is kept doesn't grow, and nothing is fed that isn't counted.
use super::stored_at;
use std::alloc::Global;
use std::process::Abort;
use std::test::Fail;
use tape_core::limits::{LONGEST_CHUNK, MOST_CHUNKS};
use tape_core::{Bytes, Recording, read_recording};
use tape_seek::{Edit, EditFault, Session};

/// A header of no words, and so many chunks of so many `A`.
fn alike_script(alloc: Global, count: usize, size: usize) -> Result<String, Fail> {
    let chunk = "A".repeat(alloc, size)?;
    let body = chunk.as_str().repeat(alloc, count)?;
    Ok(["\n", body.as_str()].concat(alloc)?)
}

/// So many chunks of so many `A`, all due at once.
fn alike(alloc: Global, count: usize, size: usize) -> Result<Recording, Fail> {
    let script = alike_script(alloc, count, size)?;
    let line = format!(in alloc; "0 {size}\n")?;
    let timing = line.as_str().repeat(alloc, count)?;
    Ok(read_recording(alloc, script.as_bytes(), timing.as_bytes())?)
}

/// A session over such chunks.
pub(super) fn opened(
    alloc: Global,
    count: usize,
    size: usize,
    every: usize,
) -> Result<Session, Fail> {
    Ok(stored_at(alloc, alike(alloc, count, size)?, every)?)
}

/// How many chunks a seek to a count feeds, if it goes there.
fn fed_to(session: &mut Session, count: usize) -> Option<usize> {
    if count > session.recording().chunks().len() {
        return None;
    }
    match session.seek_count(count) {
        Ok(view) if view.count() == count => Some(view.fed()),
        _ => None,
    }
}

/// How many chunks are fed in all by so many seeks back to 8 and forth to 16.
fn fed_by_turns(session: &mut Session, turns: usize) -> Option<usize> {
    let mut fed: usize = 0;
    for _ in 0..turns {
        fed = fed.saturating_add(fed_to(session, 8)?);
        fed = fed.saturating_add(fed_to(session, 16)?);
    }
    Some(fed)
}

/// A hidden replay would feed some 250 GB here.
#[test]
fn seeks_to_and_fro_feed_nothing(rt: HostRuntime) -> Result<(), Fail> {
    let mut session = opened(rt.alloc(), 16, LONGEST_CHUNK, 1)?;
    let fed = (fed_to(&mut session, 16), fed_by_turns(&mut session, 10_000));
    assert_eq!(rt; (fed, session.held()), ((Some(16), Some(0)), 17));
    Ok(())
}

/// What a seek to a count feeds, and how many terminals are then kept.
fn fed_and_held(session: &mut Session, count: usize) -> (Option<usize>, usize) {
    let fed = fed_to(session, count);
    (fed, session.held())
}

/// The same of seeks to the millionth chunk, there again, and to the third.
fn fed_and_held_by_three(session: &mut Session) -> [(Option<usize>, usize); 3] {
    [
        fed_and_held(session, MOST_CHUNKS),
        fed_and_held(session, MOST_CHUNKS),
        fed_and_held(session, 3),
    ]
}

/// A hidden terminal for each chunk would take some 6 GB here.
#[test]
fn a_million_chunks_keep_two_terminals(rt: HostRuntime) -> Result<(), Fail> {
    let mut session = opened(rt.alloc(), MOST_CHUNKS, 1, 1_000_000)?;
    let wanted = [(Some(MOST_CHUNKS), 2), (Some(0), 2), (Some(3), 2)];
    assert_eq!(rt; fed_and_held_by_three(&mut session), wanted);
    Ok(())
}

/// Makes an edit, or tells why it is refused.
pub(super) fn applied(session: &mut Session, edit: Edit) -> Result<(), EditFault> {
    match session.apply(edit) {
        Ok(()) => Ok(()),
        Err(refused) => Err(refused.fault),
    }
}

/// So many `A`.
pub(super) fn letters(alloc: Global, size: usize) -> Result<Bytes, EditFault> {
    match vec![in alloc; b'A'; size] {
        Ok(bytes) => Ok(Bytes::from_vec(bytes)),
        Err(_) => Err(EditFault::OutOfMemory),
    }
}

/// Inserts a chunk of so many `A`.
fn inserted(alloc: Global, session: &mut Session, at: usize, size: usize) -> Result<(), EditFault> {
    let bytes = letters(alloc, size)?;
    applied(
        session,
        Edit::Insert {
            at,
            delay: 0,
            bytes,
        },
    )
}

/// Gives a chunk so many `A`.
fn replaced(alloc: Global, session: &mut Session, at: usize, size: usize) -> Result<(), EditFault> {
    let bytes = letters(alloc, size)?;
    applied(session, Edit::Replace { at, bytes })
}

/// Chunks of the most bytes and of one more: what edits that bring them answer, and what log and body then hold.
fn long_chunks(alloc: Global, session: &mut Session) -> ([Result<(), EditFault>; 3], (usize, u64)) {
    let answers = [
        inserted(alloc, session, 1, LONGEST_CHUNK),
        inserted(alloc, session, 0, LONGEST_CHUNK + 1),
        replaced(alloc, session, 1, LONGEST_CHUNK + 1),
    ];
    (
        answers,
        (session.log().len(), session.recording().body_len()),
    )
}

#[test]
fn the_longest_chunk(rt: HostRuntime) -> Result<(), Fail> {
    let mut session = opened(rt.alloc(), 1, 1, 1)?;
    let refused = Err(EditFault::ChunkTooLong);
    let wanted = ([Ok(()), refused, refused], (1, 1_048_577));
    assert_eq!(rt; long_chunks(rt.alloc(), &mut session), wanted);
    Ok(())
}

/// A chunk too many, then room for one, that chunk, and one too many again: what the edits answer, and what is left.
fn many_chunks(alloc: Global, session: &mut Session) -> ([Result<(), EditFault>; 4], (usize, u64)) {
    let gone = Edit::Delete {
        from: 999_999,
        to: 1_000_000,
    };
    let answers = [
        inserted(alloc, session, 0, 1),
        applied(session, gone),
        inserted(alloc, session, 999_999, 1),
        inserted(alloc, session, 1_000_000, 0),
    ];
    (
        answers,
        (session.log().len(), session.recording().body_len()),
    )
}

#[test]
fn the_most_chunks(rt: HostRuntime) -> Result<(), Fail> {
    let mut session = opened(rt.alloc(), MOST_CHUNKS, 0, 1_000)?;
    let refused = Err(EditFault::TooManyChunks);
    let wanted = ([refused, Ok(()), Ok(()), refused], (2, 1));
    assert_eq!(rt; many_chunks(rt.alloc(), &mut session), wanted);
    Ok(())
}

/// Inserts a request for a report as chunk `at`, a microsecond after the chunk before.
fn asked(alloc: Global, session: &mut Session, at: usize) -> Result<(), EditFault> {
    match Bytes::copy_of(alloc, b"\x1b[5n") {
        Ok(bytes) => applied(
            session,
            Edit::Insert {
                at,
                delay: 1,
                bytes,
            },
        ),
        Err(_) => Err(EditFault::OutOfMemory),
    }
}

/// The count that a seek to a moment goes to, how many chunks it feeds, and the length of what was sent.
fn seen_at(session: &mut Session, moment: u64) -> Option<(usize, usize, usize)> {
    match session.seek(moment) {
        Ok(view) => Some((view.count(), view.fed(), view.reports().len())),
        Err(_) => None,
    }
}

/// The first of a hundred thousand such edits that is refused, or behind which a seek feeds other than one chunk.
fn first_odd(alloc: Global, session: &mut Session) -> Option<usize> {
    for at in 0..100_000 {
        if asked(alloc, session, at).is_err() || fed_to(session, at + 1) != Some(1) {
            return Some(at);
        }
    }
    None
}

/// How many terminals, edits and microseconds such edits leave, and what a seek then sees.
fn check_left(rt: &impl Abort, session: &mut Session) {
    let kept = (session.held(), session.log().len());
    assert_eq!(rt; kept, (101, 100_000));
    assert_eq!(rt; session.recording().length(), 100_000);
    let seen = seen_at(session, 99_999);
    assert_eq!(rt; seen, Some((99_999, 999, 399_996)));
}

/// The log, the chunks and the list of reports grow with each edit, and a seek follows it.
#[test]
fn a_hundred_thousand_edits(rt: HostRuntime) -> Result<(), Fail> {
    let mut session = opened(rt.alloc(), 0, 0, 1_000)?;
    assert_eq!(rt; first_odd(rt.alloc(), &mut session), None);
    check_left(&rt, &mut session);
    Ok(())
}
