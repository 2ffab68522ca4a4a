//! Large inputs: what is kept doesn't grow, and nothing is fed that isn't counted.
use super::stored_at;
use crate::strip::Strip;
use std::alloc::Global;
use std::test::Fail;
use tape_core::limits::{LONGEST_CHUNK, MOST_CHUNKS};
use tape_core::read_recording;
use tape_seek::Session;

/// A session of a strip of 8192 cells over so many chunks of so many `A`, all due at once.
fn alike(alloc: Global, count: usize, size: usize, every: usize) -> Result<Session<Strip>, Fail> {
    let body = "A".repeat(alloc, size)?.as_str().repeat(alloc, count)?;
    let script = ["\n", body.as_str()].concat(alloc)?;
    let line = format!(in alloc; "0 {size}\n")?;
    let timing = line.as_str().repeat(alloc, count)?;
    let recording = read_recording(alloc, script.as_bytes(), timing.as_bytes())?;
    Ok(stored_at(alloc, recording, every, 8_192)?)
}

/// How many chunks a seek to a count feeds, if it goes there.
fn fed_to(session: &mut Session<Strip>, count: usize) -> Option<usize> {
    if count > session.recording().chunks().len() {
        return None;
    }
    match session.play_to_count(count) {
        Ok(view) if view.count() == count => Some(view.fed()),
        _ => None,
    }
}

/// How many chunks are fed in all by so many seeks back to 8 and forth to 16.
fn fed_by_turns(session: &mut Session<Strip>, turns: usize) -> Option<usize> {
    let mut fed: usize = 0;
    for _ in 0..turns {
        fed = fed.saturating_add(fed_to(session, 8)?);
        fed = fed.saturating_add(fed_to(session, 16)?);
    }
    Some(fed)
}

/// A hidden replay would feed some 250 GB here.
#[test]
fn seeks_to_and_fro_feed_nothing(rt: HostRuntime) -> Result<(), Fail> {
    let mut session = alike(rt.alloc(), 16, LONGEST_CHUNK, 1)?;
    let fed = (fed_to(&mut session, 16), fed_by_turns(&mut session, 10_000));
    assert_eq!(rt; (fed, session.held()), ((Some(16), Some(0)), 17));
    Ok(())
}

/// A hidden strip for each chunk would take some 8 GB here.
#[test]
fn a_million_chunks_keep_two_strips(rt: HostRuntime) -> Result<(), Fail> {
    let mut session = alike(rt.alloc(), MOST_CHUNKS, 1, 1_000_000)?;
    let fed = (fed_to(&mut session, MOST_CHUNKS), session.held());
    assert_eq!(rt; fed, (Some(MOST_CHUNKS), 2));
    let back = (fed_to(&mut session, 3), session.held());
    assert_eq!(rt; back, (Some(3), 2));
    Ok(())
}
