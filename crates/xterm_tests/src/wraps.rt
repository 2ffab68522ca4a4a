//! The pending wrap: what clears it, also where nothing moves and no cell changes, and what leaves it.

use crate::told::feed_reset;
use std::alloc::Global;
use std::process::Abort;
use std::test::Fail;

// A row that is full, with the wrap pending behind it.
const FULL: &[u8] = b"123456789012";

const CLEARING: &[&str] = &[
    "\x08",
    "\n",
    "\x0b",
    "\x0c",
    "\r",
    "\x1bD",
    "\x1bE",
    "\x1bM",
    "\x1b[A",
    "\x1b[B",
    "\x1b[C",
    "\x1b[D",
    "\x1b[E",
    "\x1b[F",
    "\x1b[12G",
    "\x1b[12`",
    "\x1b[a",
    "\x1b[e",
    "\x1b[d",
    "\x1b[;12H",
    "\x1b[;12f",
    "\x1b[Z",
    "\x1b[r",
    "\x1b[?6h",
    "\x1b[?6l",
    "\x1b[?7l",
    "\x1b#8",
    "\x1bc",
    "\x1b[J",
    "\x1b[1J",
    "\x1b[2J",
    "\x1b[K",
    "\x1b[1K",
    "\x1b[2K",
    "\x1b[X",
    "\x1b[@",
    "\x1b[P",
    "\x1b[L",
    "\x1b[M",
    "\x1b8",
    "\x1b[u",
    "\x1b[?1048l",
    "\x1b[?1049l",
];

const LEAVING: &[&str] = &[
    "\x00",
    "\x05",
    "\x07",
    "\t",
    "\x0e",
    "\x0f",
    "\x18",
    "\x1a",
    "\x7f",
    "\u{301}",
    "\u{85}",
    "\x1bH",
    "\x1bZ",
    "\x1b7",
    "\x1b=",
    "\x1b>",
    "\x1b(0",
    "\x1b)A",
    "\x1b7\x1b[H\x1b8",
    "\x1b[s\x1b[H\x1b[u",
    "\x1b[?1048h\x1b[H\x1b[?1048l",
    "\x1b[?1049h\x1b[H\x1b[?1049l",
    "\x1b[I",
    "\x1b[3J",
    "\x1b[3K",
    "\x1b[S",
    "\x1b[T",
    "\x1b[g",
    "\x1b[3g",
    "\x1b[4h",
    "\x1b[4l",
    "\x1b[20h",
    "\x1b[m",
    "\x1b[7;31m",
    "\x1b[3;3r",
    "\x1b[2;1r",
    "\x1b[s",
    "\x1b[c",
    "\x1b[5n",
    "\x1b[6n",
    "\x1b[x",
    "\x1b[?1h",
    "\x1b[?5h",
    "\x1b[?7h",
    "\x1b[?25l",
    "\x1b[?47h",
    "\x1b[?47l",
    "\x1b[?1047h",
    "\x1b[?1047l",
    "\x1b[?1048h",
    "\x1b[?1049h",
    "\x1b[?2004h",
    "\x1b[!p",
    "\x1b]0;x\x07",
    "\x1bkx\x07",
    "\x1b\\",
];

// Outside the margins.
const LEAVING_OUTSIDE: &[&str] = &["\x1b[L", "\x1b[M"];

fn is_pending(alloc: Global, start: &[u8], bytes: &[u8]) -> Result<bool, Fail> {
    let left = feed_reset(alloc, &[start, FULL, bytes])?;
    Ok(left.terminal.screen().wrap())
}

// Whether the wrap is pending after each, from a full row behind a start.
fn all_are(
    rt: &(impl Abort + AllocGlobal),
    start: &[u8],
    rows: &[&str],
    want: bool,
) -> Result<(), Fail> {
    for row in rows {
        let wrap = is_pending(rt.alloc(), start, row.as_bytes())?;
        assert_eq!(rt; wrap, want, "at {}", row.as_bytes().escape_ascii());
    }
    Ok(())
}

#[test]
fn cleared(rt: HostRuntime) -> Result<(), Fail> {
    all_are(&rt, b"", CLEARING, false)
}

#[test]
fn left(rt: HostRuntime) -> Result<(), Fail> {
    all_are(&rt, b"", LEAVING, true)?;
    all_are(&rt, b"\x1b[2;3r", LEAVING_OUTSIDE, true)
}
