//! Sequences that erase the rest of a row: where a terminal tells of them before they do.

use crate::told::feed_reset;
use std::process::Abort;
use std::test::Fail;

// A start, bytes, and how many of them are such a sequence: 0 where none begins, or something is pending.
const ERASES: &[(&str, &[u8], usize)] = &[
    ("", b"\x1b[K", 3),
    ("ab\x1b[1;1H", b"\x1b[Kx", 3),
    ("\x1b[3;4H", b"\x1b[0K", 4),
    ("", b"", 0),
    ("", b"x\x1b[K", 0),
    ("", b"\x1b[1K", 0),
    ("", b"\x1b[2K", 0),
    ("", b"\x1b[J", 0),
    ("", b"\x1b[", 0),
    ("\x1b", b"[K", 0),
    ("\x1b[", b"\x1b[K", 0),
    ("\x1bkx", b"\x1b[K", 0),
];

fn assert_erases(
    rt: &(impl Abort + AllocGlobal),
    start: &str,
    bytes: &[u8],
    want: usize,
) -> Result<(), Fail> {
    let left = feed_reset(rt.alloc(), &[start.as_bytes()])?;
    let erased = left.terminal.erases_right(bytes);
    assert!(rt;
        erased == want,
        "at {} behind {}",
        bytes.escape_ascii(),
        start.as_bytes().escape_ascii()
    );
    Ok(())
}

#[test]
fn rests_of_rows_are_erased(rt: HostRuntime) -> Result<(), Fail> {
    for &(start, bytes, want) in ERASES {
        assert_erases(&rt, start, bytes, want)?;
    }
    Ok(())
}
