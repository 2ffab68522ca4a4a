//! Lines as script(1) writes them, and lines that differ in one place.
use std::alloc::Global;
use tape_core::{Fault, read_recording};

/// A header and 99 bytes.
const SCRIPT: &[u8] = &[b'\n'; 100];

/// How many chunks a timing file tells, their delays and their bytes.
fn told(alloc: Global, timing: &[u8]) -> Result<(usize, u64, u64), Fault> {
    let recording = read_recording(alloc, SCRIPT, timing)?;
    Ok((
        recording.chunks().len(),
        recording.length(),
        recording.body_len(),
    ))
}

#[test]
fn lines_of_the_form(rt: HostRuntime) {
    let rows: [(&[u8], usize, u64, u64); 8] = [
        (b"0.000000 0\n", 1, 0, 0),
        (b"0.000001 1\n\n", 1, 1, 1),
        (b"0.500000 3\n0.1 2\n", 2, 600_000, 5),
        (b"12.345678 90\n0.000000 9", 2, 12_345_678, 99),
        (b"0.999999 9\n ", 1, 999_999, 9),
        (b"007.250000 0000001\n", 1, 7_250_000, 1),
        (b"1000000.000000 0\n", 1, 1_000_000_000_000, 0),
        (b"0.000000 99\n0.000000 0\n", 2, 0, 99),
    ];
    for (timing, chunks, length, bytes) in rows {
        assert_eq!(rt;
            told(rt.alloc(), timing),
            Ok((chunks, length, bytes)),
            "of {timing:?}"
        );
    }
}

#[test]
fn lines_of_another_form(rt: HostRuntime) {
    let rows: [(&[u8], u64); 9] = [
        (b"0.500000 3", 500_000),
        (b"0.500000 3 \n", 500_000),
        (b"0.500000  3\n", 500_000),
        (b"0.500000\t3\n", 500_000),
        (b" 0.500000 3\n", 500_000),
        (b"0. 3\n", 0),
        (b"0.50000 3\n", 500_000),
        (b"0.5000000 3\n", 500_000),
        (b"-0.500000 3\n", 0),
    ];
    for (timing, length) in rows {
        assert_eq!(rt;
            told(rt.alloc(), timing),
            Ok((1, length, 3)),
            "of {timing:?}"
        );
    }
    assert_eq!(rt; told(rt.alloc(), b""), Ok((0, 0, 0)));
    assert_eq!(rt; told(rt.alloc(), b"\n"), Ok((0, 0, 0)));
}

#[test]
fn faults_of_lines(rt: HostRuntime) {
    let rows: [(&[u8], Fault); 20] = [
        (b".\n", Fault::BadDelay(1)),
        (b"0\n", Fault::BadCount(1)),
        (b"0.500000\n", Fault::BadCount(1)),
        (b"0.500000 \n", Fault::BadCount(1)),
        (b"0.500000 3\r\n", Fault::BadCount(1)),
        (b"0 .500000 3\n", Fault::BadCount(1)),
        (b".500000 3\n", Fault::BadDelay(1)),
        (b"/.500000 3\n", Fault::BadDelay(1)),
        (b"0.50000: 3\n", Fault::BadDelay(1)),
        (b"0,500000 3\n", Fault::BadDelay(1)),
        (b"+0.500000 3\n", Fault::BadDelay(1)),
        (b"0.500000 +3\n", Fault::BadCount(1)),
        (b"0.500000 3.0\n", Fault::BadCount(1)),
        (b"0.500000 3 4\n", Fault::BadCount(1)),
        (b"1000000.000001 0\n", Fault::DelayTooLarge(1)),
        (b"1000000000001.000000 0\n", Fault::DelayTooLarge(1)),
        (b"99999999999999999999.000000 0\n", Fault::DelayTooLarge(1)),
        // A chunk may be as long as this; the script is too short for it.
        (b"0.000000 1048576\n", Fault::ScriptShort(0)),
        (b"0.000000 1048577\n", Fault::ChunkTooLong(1)),
        (b"0.000000 99999999999999999999\n", Fault::ChunkTooLong(1)),
    ];
    for (timing, fault) in rows {
        assert_eq!(rt; told(rt.alloc(), timing), Err(fault), "in {timing:?}");
    }
}
