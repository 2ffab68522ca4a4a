use std::alloc::Global;
use std::test::Fail;
use tape_core::{Fault, Recording, read_recording};

const EMPTY: &[u8] = b"Script started on X\n";

const AB: &[u8] = b"Script started on X\nab";

/// The fault of a pair, if it has one.
fn fault_of(alloc: Global, script: &[u8], timing: &[u8]) -> Option<Fault> {
    read_recording(alloc, script, timing).err()
}

#[test]
fn faults_of_pairs(rt: HostRuntime) {
    let rows: [(&[u8], &[u8], Fault); 22] = [
        (AB, b"0.5 3\n", Fault::ScriptShort(0)),
        (AB, b"0 1\n0 1\n0 1\n", Fault::ScriptShort(2)),
        (AB, b"0.1 1\nO 0.1 5\n", Fault::MultiStream(2)),
        (b"", b"0.1 1\nO 0.1 5\n", Fault::MultiStream(2)),
        (EMPTY, b"1000000.000001 0\n", Fault::DelayTooLarge(1)),
        (EMPTY, b"0 1048576\n", Fault::ScriptShort(0)),
        (EMPTY, b"0 1048577\n", Fault::ChunkTooLong(1)),
        (b"no line", b".5 1\n", Fault::BadDelay(1)),
        (b"no line", b"", Fault::NoHeader),
        (AB, b"\n1 2 3\n", Fault::BadCount(2)),
        (AB, b"1 1\r\n", Fault::BadCount(1)),
        (AB, b"\r\n", Fault::BadDelay(1)),
        (AB, b"1\n", Fault::BadCount(1)),
        (AB, b"1 \n", Fault::BadCount(1)),
        (AB, b"1 -1\n", Fault::BadCount(1)),
        (AB, b"--1 1\n", Fault::BadDelay(1)),
        (AB, b"- 1\n", Fault::BadDelay(1)),
        (AB, b"1.2.3 1\n", Fault::BadDelay(1)),
        (AB, b"1,5 1\n", Fault::BadDelay(1)),
        (AB, b"z\n1,5 1\n", Fault::MultiStream(1)),
        (AB, b"1000001 1048577\n", Fault::DelayTooLarge(1)),
        (AB, b"1000001 x\n", Fault::BadCount(1)),
    ];
    for (script, timing, fault) in rows {
        assert_eq!(rt;
            fault_of(rt.alloc(), script, timing),
            Some(fault),
            "in {timing:?}"
        );
    }
}

#[test]
fn faults_behind_written_lines(rt: HostRuntime) {
    let rows: [(&[u8], Fault); 12] = [
        (b"0.100000 1\n1000000.000001 0\n", Fault::DelayTooLarge(2)),
        (b"0.100000 1\n0.100000 1048577\n", Fault::ChunkTooLong(2)),
        (b"0.100000 1\n0.100000 +1\n", Fault::BadCount(2)),
        (b"0.100000 1\n0.100000 1 1\n", Fault::BadCount(2)),
        (b"0.100000 1\n0.100000 1\r\n", Fault::BadCount(2)),
        (b"0.100000 1\n+0.100000 1\n", Fault::BadDelay(2)),
        (b"0.100000 1\n.100000 1\n", Fault::BadDelay(2)),
        (b"0.100000 1\n\n.\n", Fault::BadDelay(3)),
        (b"0.100000 1\nO 0.100000 1\n", Fault::MultiStream(2)),
        (b"0.100000 1\n0.100000 2\n", Fault::ScriptShort(1)),
        (b"99999999999999999999.000000 0\n", Fault::DelayTooLarge(1)),
        (b"0.000000 99999999999999999999\n", Fault::ChunkTooLong(1)),
    ];
    for (timing, fault) in rows {
        assert_eq!(rt;
            fault_of(rt.alloc(), AB, timing),
            Some(fault),
            "in {timing:?}"
        );
    }
}

/// Two bytes, the second half a second after the first.
fn a_then_b(alloc: Global) -> Result<Recording, Fault> {
    read_recording(alloc, AB, b"0.000000 1\n0.500000 1\n")
}

#[test]
fn parts_of_a_pair(rt: HostRuntime) -> Result<(), Fail> {
    let recording = a_then_b(rt.alloc())?;
    assert_eq!(rt;
        (recording.header(), recording.trailer()),
        (EMPTY, b"".as_slice())
    );
    assert_eq!(rt; (recording.body_len(), recording.length()), (2, 500_000));
    Ok(())
}

/// The bytes of a chunk.
fn bytes_of(recording: &Recording, i: usize) -> Option<&[u8]> {
    Some(recording.chunks().get(i)?.bytes.as_slice())
}

#[test]
fn chunks_of_a_pair(rt: HostRuntime) -> Result<(), Fail> {
    let recording = a_then_b(rt.alloc())?;
    for (i, bytes) in [Some(b"a".as_slice()), Some(b"b"), None].iter().enumerate() {
        assert_eq!(rt; bytes_of(&recording, i), *bytes, "chunk {i}");
    }
    Ok(())
}

#[test]
fn due_times_of_a_pair(rt: HostRuntime) -> Result<(), Fail> {
    let recording = a_then_b(rt.alloc())?;
    assert_eq!(rt; recording.chunks().len(), 2);
    assert_eq!(rt;
        (recording.due_time(0), recording.due_time(1)),
        (0, 500_000)
    );
    Ok(())
}

#[test]
fn due_counts_of_a_pair(rt: HostRuntime) -> Result<(), Fail> {
    let recording = a_then_b(rt.alloc())?;
    for (moment, count) in [(0, 1), (499_999, 1), (500_000, 2), (u64::MAX, 2)] {
        assert_eq!(rt; recording.due_count(moment), count, "at {moment}");
    }
    Ok(())
}

/// How many chunks a timing file tells, and their delays together.
fn told(alloc: Global, timing: &[u8]) -> Result<(usize, u64), Fault> {
    let recording = read_recording(alloc, AB, timing)?;
    Ok((recording.chunks().len(), recording.length()))
}

#[test]
fn lenient_lines(rt: HostRuntime) {
    let rows: [(&[u8], usize, u64); 12] = [
        (b"0 1\n0 1\n", 2, 0),
        (b"0.250000 1\n0.250000 1", 2, 500_000),
        (b"0.25000 1\n0.2500009 1\n0.250000 0\n", 3, 750_000),
        (b"0.250000  1\n0.250000\t1\n0.250000 0 \n", 3, 750_000),
        (b" 0.250000 1\n\n0.250000 1\n-0.250000 0\n", 3, 500_000),
        (b" 0.1\t2 \n\n-0.5 0", 2, 100_000),
        (b"-9999999 0\n", 1, 0),
        (b"1000000 0\n", 1, 1_000_000_000_000),
        (b"1000000.0000009 0\n", 1, 1_000_000_000_000),
        (b"007.25 0000001\n", 1, 7_250_000),
        (b" \t\n\n", 0, 0),
        (b"1. 2\n2 0\n", 2, 3_000_000),
    ];
    for (timing, chunks, length) in rows {
        assert_eq!(rt;
            told(rt.alloc(), timing),
            Ok((chunks, length)),
            "of {timing:?}"
        );
    }
}

#[test]
fn header_and_trailer(rt: HostRuntime) -> Result<(), Fail> {
    let recording = read_recording(rt.alloc(), b"one line\nab and the rest\n", b"0 1\n")?;
    assert_eq!(rt;
        (recording.header(), recording.trailer()),
        (b"one line\n".as_slice(), b"b and the rest\n".as_slice())
    );
    Ok(())
}
