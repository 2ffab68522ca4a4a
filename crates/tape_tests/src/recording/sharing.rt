//! Scripts that are handed over, and whose chunks are parts of them.
use super::edits::compare_chunks;
use std::alloc::Global;
use std::test::Fail;
use tape_core::{Fault, Recording, read_recording_of};

/// Hands a copy of the script over.
pub(super) fn handed(alloc: Global, script: &[u8], timing: &[u8]) -> Result<Recording, Fault> {
    read_recording_of(alloc, script.to_vec(alloc)?, timing)
}

const SCRIPT: &[u8] = b"head\nabbcccddddtail";

const TIMING: &[u8] = b"1 1\n2 2\n0 3\n4 4\n0 0\n";

#[test]
fn parts_of_a_script(rt: HostRuntime) -> Result<(), Fail> {
    let recording = handed(rt.alloc(), SCRIPT, TIMING)?;
    compare_chunks(
        &rt,
        &recording,
        &[
            (1_000_000, b"a"),
            (2_000_000, b"bb"),
            (0, b"ccc"),
            (4_000_000, b"dddd"),
            (0, b""),
        ],
    );
    Ok(())
}

#[test]
fn faults_of_a_script(rt: HostRuntime) {
    let rows: [(&[u8], &[u8], Fault); 10] = [
        (b"", b"", Fault::NoHeader),
        (b"no line", b"", Fault::NoHeader),
        (b"no line", b"0 0\n0 0\n", Fault::NoHeader),
        (b"no line", b"0 7\n", Fault::NoHeader),
        (b"no line", b"0 7\nx\n", Fault::MultiStream(2)),
        (b"\nabc", b"0 4\n0 1\n.\n", Fault::BadDelay(3)),
        (b"\nabc", b"0 4\n", Fault::ScriptShort(0)),
        (b"\nabc", b"0 3\n0 0\n\n0 1\n", Fault::ScriptShort(2)),
        (b"\nabc", b"0 2\n0 2\n0 0\n0 1\n", Fault::ScriptShort(1)),
        (b"\n", b"0 0\n0 1048576\n", Fault::ScriptShort(1)),
    ];
    for (script, timing, fault) in rows {
        assert_eq!(rt;
            handed(rt.alloc(), script, timing).err(),
            Some(fault),
            "of {script:?} and {timing:?}"
        );
    }
}

/// How many chunks have other bytes than these.
fn others(recording: &Recording, bytes: &[u8]) -> usize {
    recording
        .chunks()
        .iter()
        .filter(|chunk| chunk.bytes.as_slice() != bytes)
        .count()
}

#[test]
fn many_parts(rt: HostRuntime) -> Result<(), Fail> {
    let body = "0123456".repeat(rt.alloc(), 200_000)?;
    let script = ["\n", body.as_str(), "end"].concat(rt.alloc())?;
    let timing = "0.000001 7\n".repeat(rt.alloc(), 200_000)?;
    let recording = read_recording_of(rt.alloc(), script.into_bytes(), timing.as_bytes())?;
    assert_eq!(rt; recording.chunks().len(), 200_000);
    assert_eq!(rt;
        (recording.body_len(), recording.length()),
        (1_400_000, 200_000)
    );
    assert_eq!(rt; others(&recording, b"0123456"), 0);
    assert_eq!(rt; recording.trailer(), b"end".as_slice());
    Ok(())
}

/// A chunk of the greatest length, and behind it a trailer that is longer than all chunks.
#[test]
fn large_parts(rt: HostRuntime) -> Result<(), Fail> {
    let long = "A".repeat(rt.alloc(), 1_048_576)?;
    let rest = "B".repeat(rt.alloc(), 8_388_608)?;
    let script = ["\n", long.as_str(), rest.as_str()].concat(rt.alloc())?;
    let recording = read_recording_of(rt.alloc(), script.into_bytes(), b"0 1048576\n")?;
    assert_eq!(rt; others(&recording, long.as_bytes()), 0);
    assert_eq!(rt; recording.trailer() == rest.as_bytes(), true);
    Ok(())
}
