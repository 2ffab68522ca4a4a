//! Refused growths. `tests/refused.py` runs these with the first, second, .. growth of memory refused, until none is, and
//! counts the lines `refused: WHAT`. After a refusal all is as it must be, and the same call then answers.
use super::edits::{A, BB, EMPTY, NEW, SCRIPT, TIMING, compare_chunks};
use super::sharing::handed;
use crate::once_more::{bytes, read};
use std::io;
use std::io::Read;
use std::process::Abort;
use std::rt::Runtime;
use std::test::Fail;
use tape_core::limits::LONGEST_DELAY;
use tape_core::{Chunk, Fault, Recording, Watched, read_recording, slurp};

#[test]
fn a_slurp(rt: HostRuntime) -> Result<(), Fail> {
    let mut reader = Watched::new(io::repeat(b'x').take(200_000));
    let told = match slurp(rt.alloc(), &mut reader) {
        Ok(told) => told,
        Err(fault) => {
            println!(rt; "refused: slurp")?;
            assert_eq!(rt; fault, Fault::OutOfMemory);
            // Want of memory is no fault of the reader.
            assert_eq!(rt; reader.failed(), false);
            let mut anew = Watched::new(io::repeat(b'x').take(200_000));
            slurp(rt.alloc(), &mut anew)?
        }
    };
    assert_eq!(rt; told.len(), 200_000);
    assert_eq!(rt; told.iter().position(|byte| *byte != b'x'), None);
    Ok(())
}

/// Header, third chunk and trailer of a recording, its bytes and its length.
fn told(recording: &Recording) -> Option<(&[u8], &[u8], &[u8], u64, u64)> {
    let third = recording.chunks().get(2)?.bytes.as_slice();
    Some((
        recording.header(),
        third,
        recording.trailer(),
        recording.body_len(),
        recording.length(),
    ))
}

#[test]
fn a_recording(rt: HostRuntime) -> Result<(), Fail> {
    let script = b"head\nabbcccddddtail";
    let timing = b"1 1\n2 2\n0 3\n4 4\n0 0\n";
    let recording = match read_recording(rt.alloc(), script, timing) {
        Ok(recording) => recording,
        Err(fault) => {
            println!(rt; "refused: read_recording")?;
            assert_eq!(rt; fault, Fault::OutOfMemory);
            read_recording(rt.alloc(), script, timing)?
        }
    };
    let parts = (
        b"head\n".as_slice(),
        b"ccc".as_slice(),
        b"tail".as_slice(),
        10,
        7_000_000,
    );
    assert_eq!(rt; told(&recording), Some(parts));
    Ok(())
}

#[test]
fn a_recording_of_a_script(rt: HostRuntime) -> Result<(), Fail> {
    let script = b"head\nabbcccddddtail";
    let timing = b"1.000000 1\n2 2\n0 3\n4 4\n0 0\n";
    let recording = match handed(rt.alloc(), script, timing) {
        Ok(recording) => recording,
        Err(fault) => {
            println!(rt; "refused: read_recording_of")?;
            assert_eq!(rt; fault, Fault::OutOfMemory);
            handed(rt.alloc(), script, timing)?
        }
    };
    let parts = (
        b"head\n".as_slice(),
        b"ccc".as_slice(),
        b"tail".as_slice(),
        10,
        7_000_000,
    );
    assert_eq!(rt; told(&recording), Some(parts));
    Ok(())
}

/// Puts a chunk in before the second one; where memory is refused, once more with the chunk that came back.
fn insert(
    rt: &(impl Runtime + Abort),
    recording: &mut Recording,
    chunk: Chunk,
) -> Result<(), Fail> {
    assert!(rt;
        recording.chunks().len() == 3 && recording.body_len() == 3,
        "three chunks"
    );
    assert!(rt;
        chunk.bytes.len() == 3 && chunk.delay <= LONGEST_DELAY,
        "a short chunk"
    );
    if let Err(back) = recording.insert(1, chunk) {
        println!(rt; "refused: insert")?;
        compare_chunks(rt, recording, &[A, BB, EMPTY]);
        assert_eq!(rt; (back.delay, back.bytes.as_slice()), NEW);
        assert!(rt;
            recording.chunks().len() == 3 && recording.body_len() == 3,
            "as before"
        );
        recording.insert(1, back)?;
    }
    Ok(())
}

#[test]
fn an_insert(rt: HostRuntime) -> Result<(), Fail> {
    let mut recording = read(&rt, SCRIPT, TIMING)?;
    let bytes = bytes(&rt, NEW.1)?;
    let delay = NEW.0;
    insert(&rt, &mut recording, Chunk { delay, bytes })?;
    compare_chunks(&rt, &recording, &[A, NEW, BB, EMPTY]);
    Ok(())
}

/// A faulty pair is told as such, or as want of memory where a growth was refused before.
#[test]
fn a_faulty_recording(rt: HostRuntime) -> Result<(), Fail> {
    let mut answer = read_recording(rt.alloc(), b"head\nabc", b"1 1\n2 2\n0 1\n").map(|_| ());
    if answer == Err(Fault::OutOfMemory) {
        println!(rt; "refused: read_recording of a short script")?;
        answer = read_recording(rt.alloc(), b"head\nabc", b"1 1\n2 2\n0 1\n").map(|_| ());
    }
    assert_eq!(rt; answer, Err(Fault::ScriptShort(2)));
    Ok(())
}
