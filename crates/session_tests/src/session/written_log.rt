use std::alloc::Global;
use std::process::Abort;
use std::test::Fail;
use tape_core::Watched;
use tape_seek::{Edit, Request, read_line, write_log};
use tape_tests::devices::{Writing, small_writer};

/// The edits that the lines ask for.
fn edits_of(alloc: Global, lines: &[&[u8]]) -> Result<Vec<Edit>, Fail> {
    let mut edits = Vec::new(alloc);
    for line in lines {
        if let Request::Edit(edit) = read_line(alloc, line)? {
            edits.push(edit)?;
        }
    }
    Ok(edits)
}

/// The log of the edits that the lines ask for.
fn log_of(alloc: Global, lines: &[&[u8]]) -> Result<Vec<u8>, Fail> {
    let edits = edits_of(alloc, lines)?;
    let mut writer = Watched::new(Vec::new(alloc));
    write_log(edits.as_slice(), &mut writer)?;
    Ok(writer.into_inner())
}

/// Lines of edits, and how these are written.
const LINES: &[(&[u8], &[u8])] = &[
    (b"replace 007 4A4b", b"replace 7 4a4b\n"),
    (b"insert 0 1.5 -", b"insert 0 1.500000 -\n"),
    (b"insert 1 0.25 58 ", b"insert 1 0.250000 58\n"),
    (b"replace 0 -", b"replace 0 -\n"),
    (b"replace 00 00FF", b"replace 0 00ff\n"),
    (b"delete  0 \t 1", b"delete 0 1\n"),
    (b"retime 0 1", b"retime 0 1.000000\n"),
    (b"retime 10 0.0000019", b"retime 10 0.000001\n"),
    (b"cap 1000000", b"cap 1000000.000000\n"),
    (b"cap 0", b"cap 0.000000\n"),
    (
        b"delete 0999999 99999999999999999999",
        b"delete 999999 1000000000000000000\n",
    ),
];

#[test]
fn lines_of_edits(rt: HostRuntime) -> Result<(), Fail> {
    for (line, wanted) in LINES {
        let log = log_of(rt.alloc(), &[*line])?;
        assert_eq!(rt; log.as_slice(), *wanted, "of {line:?}");
    }
    Ok(())
}

/// The line of an edit that brings so many bytes.
fn long_line(alloc: Global, count: usize) -> Result<Vec<u8>, Fail> {
    let mut line = b"insert 3 2.000000 ".to_vec(alloc)?;
    for _ in 0..count {
        line.extend_from_slice(b"0f")?;
    }
    if count == 0 {
        line.push(b'-')?;
    }
    Ok(line)
}

#[test]
fn a_log_of_long_bytes(rt: HostRuntime) -> Result<(), Fail> {
    for count in [0, 1, 511, 512, 513, 1100] {
        let mut line = long_line(rt.alloc(), count)?;
        let log = log_of(rt.alloc(), &[line.as_slice(), b"cap 1.000000"])?;
        line.extend_from_slice(b"\ncap 1.000000\n")?;
        assert_eq!(rt; log.as_slice(), line.as_slice(), "of {count} bytes");
    }
    Ok(())
}

const WHOLE: &[u8] =
    b"insert 1 0.250000 58\ndelete 0 1\nreplace 7 4a4b\nretime 0 1.000000\ncap 2.000000\n";

/// Lines that ask for the edits of that log.
const ASKED: [&[u8]; 5] = [
    b"insert 1 0.25 58",
    b"delete 0 1",
    b"replace 007 4A4b",
    b"retime 0 1",
    b"cap 2",
];

/// Writes the log of these edits to a writer of each size, and compares the answer and what was taken.
fn compare_in_rooms<R: Abort + AllocGlobal>(rt: &R, edits: &[Edit]) {
    for room in 0..WHOLE.len() + 2 {
        for flush_fails in [false, true] {
            let mut writer = Watched::new(small_writer(rt.alloc(), room, flush_fails));
            let answer = write_log(edits, &mut writer);
            let writing = Writing::of(answer, writer);
            assert_eq!(rt; writing.told(), writing.wanted(WHOLE), "room for {room}");
        }
    }
}

#[test]
fn a_failing_writer_holds_a_beginning(rt: HostRuntime) -> Result<(), Fail> {
    let edits = edits_of(rt.alloc(), &ASKED)?;
    compare_in_rooms(&rt, edits.as_slice());
    Ok(())
}
