//! Edits of a recording, each call once, and what each refuses.
use std::alloc::Global;
use std::process::Abort;
use std::test::Fail;
use tape_core::{Bytes, Chunk, Fault, Recording, read_recording};

/// Three chunks: `a` at 1 second, `bb` at 3 seconds, and an empty one at the same moment.
pub const SCRIPT: &[u8] = b"head\nabbtail";

pub const TIMING: &[u8] = b"1 1\n2 2\n0 0\n";

fn three(alloc: Global) -> Result<Recording, Fault> {
    read_recording(alloc, SCRIPT, TIMING)
}

/// A chunk's delay and bytes.
pub type Told<'a> = (u64, &'a [u8]);

pub const A: Told<'static> = (1_000_000, b"a");

pub const BB: Told<'static> = (2_000_000, b"bb");

pub const EMPTY: Told<'static> = (0, b"");

pub const NEW: Told<'static> = (500_000, b"xyz");

/// A chunk, its due time, and how many chunks are due then and a microsecond before, as far as these are past it or not.
fn told_of(recording: &Recording, i: usize) -> Option<(Told<'_>, u64, bool, bool)> {
    if i >= recording.chunks().len() {
        return None;
    }
    let chunk = &recording.chunks()[i];
    let due = recording.due_time(i);
    let is_due_before = due > 0 && recording.due_count(due - 1) > i;
    Some((
        (chunk.delay, chunk.bytes.as_slice()),
        due,
        recording.due_count(due) > i,
        is_due_before,
    ))
}

/// Compares a recording with these chunks, and the due times, lengths and counts that fit them.
pub fn compare_chunks(rt: &impl Abort, recording: &Recording, chunks: &[Told]) {
    let mut due: u64 = 0;
    let mut bytes: u64 = 0;
    for (i, (delay, text)) in chunks.iter().enumerate() {
        due = due.saturating_add(*delay);
        bytes = bytes.saturating_add(text.len() as u64);
        let wanted = Some(((*delay, *text), due, true, false));
        assert_eq!(rt; told_of(recording, i), wanted, "chunk {i}");
    }
    let sums = (
        recording.chunks().len(),
        recording.length(),
        recording.body_len(),
    );
    assert_eq!(rt; sums, (chunks.len(), due, bytes), "of {chunks:?}");
    let ends = (recording.header(), recording.trailer());
    assert_eq!(rt; ends, (b"head\n".as_slice(), b"tail".as_slice()));
}

/// The recording of three chunks with a fourth put in.
fn with_new(alloc: Global, at: usize) -> Result<Recording, Fail> {
    let mut recording = three(alloc)?;
    let bytes = Bytes::copy_of(alloc, NEW.1)?;
    let has_room = at <= recording.chunks().len()
        && recording.chunks().len() <= 3
        && recording.body_len() <= 3;
    if has_room && bytes.len() <= 3 {
        let delay = NEW.0;
        recording.insert(at, Chunk { delay, bytes })?;
    }
    Ok(recording)
}

#[test]
fn inserted_chunks(rt: HostRuntime) -> Result<(), Fail> {
    let rows: [[Told; 4]; 4] = [
        [NEW, A, BB, EMPTY],
        [A, NEW, BB, EMPTY],
        [A, BB, NEW, EMPTY],
        [A, BB, EMPTY, NEW],
    ];
    for (at, chunks) in rows.iter().enumerate() {
        let recording = with_new(rt.alloc(), at)?;
        compare_chunks(&rt, &recording, chunks);
    }
    Ok(())
}

#[test]
fn removed_chunks(rt: HostRuntime) -> Result<(), Fail> {
    let rows: [(usize, usize, &[Told]); 6] = [
        (0, 1, &[BB, EMPTY]),
        (1, 2, &[A, EMPTY]),
        (2, 3, &[A, BB]),
        (0, 2, &[EMPTY]),
        (1, 3, &[A]),
        (0, 3, &[]),
    ];
    for (from, to, left) in rows {
        let mut recording = three(rt.alloc())?;
        assert!(rt;
            from < to && to <= recording.chunks().len(),
            "{from} to {to}"
        );
        recording.remove(from, to);
        compare_chunks(&rt, &recording, left);
    }
    Ok(())
}

/// Replaces where the bytes are few.
fn replace(rt: &impl Abort, recording: &mut Recording, at: usize, bytes: Bytes) {
    assert!(rt; at < recording.chunks().len(), "chunk {at}");
    assert!(rt; bytes.len() <= 1_000, "few bytes");
    assert!(rt; recording.body_len() <= 1_000, "a short body");
    recording.replace(at, bytes);
}

#[test]
fn replaced_and_retimed_chunks(rt: HostRuntime) -> Result<(), Fail> {
    let mut recording = three(rt.alloc())?;
    let bytes = Bytes::copy_of(rt.alloc(), b"")?;
    replace(&rt, &mut recording, 1, bytes);
    compare_chunks(&rt, &recording, &[A, (2_000_000, b""), EMPTY]);
    assert_eq!(rt; recording.chunks().len(), 3);
    recording.retime(0, 0);
    compare_chunks(&rt, &recording, &[(0, b"a"), (2_000_000, b""), EMPTY]);
    Ok(())
}

#[test]
fn capped_chunks(rt: HostRuntime) -> Result<(), Fail> {
    let mut recording = three(rt.alloc())?;
    assert_eq!(rt; recording.chunks().len(), 3);
    recording.retime(2, 1_000_000_000_000);
    compare_chunks(&rt, &recording, &[A, BB, (1_000_000_000_000, b"")]);
    recording.cap(1_500_000);
    compare_chunks(&rt, &recording, &[A, (1_500_000, b"bb"), (1_500_000, b"")]);
    recording.cap(0);
    compare_chunks(&rt, &recording, &[(0, b"a"), (0, b"bb"), EMPTY]);
    Ok(())
}
