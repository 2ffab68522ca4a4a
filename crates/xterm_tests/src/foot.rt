//! Line feeds that move all lines up: where a terminal tells of them before they are played.

use crate::told::feed_reset;
use std::process::Abort;
use std::test::Fail;

// LF, VT and FF.
const LINE_FEEDS: [u8; 3] = [10, 11, 12];

// BEL, BS, HT, CR, SO, SI, CAN, ESC, IND without its ESC and in one byte, and the last byte.
const OTHERS: [u8; 11] = [7, 8, 9, 13, 14, 15, 24, 27, b'D', 132, 255];

// The last line: at its start and at its end, below others that are full, where LNM is set, of the alternate sheet, behind
// sequences and a character that are finished, and with margins that are the first line and the last, or are so again.
const AT_FOOT: &[&str] = &[
    "\x1b[6H",
    "\x1b[6;12Hx",
    "\x1b#8\x1b[6;3H",
    "\x1b[20h\x1b[6;3H",
    "\x1b[?1049h\x1b[6H",
    "\x1b[6H\x1b]0;x\x07",
    "\x1b[6H\x1bkx\x1b\\",
    "\x1b[6H\u{e9}",
    "\n\n\n\n\n\n\n",
    "\x1b[1;6r\x1b[6H",
    "\x1b[2;6r\x1b[r\x1b[6H",
];

// Lines above the last, and margins inside the sheet.
const ELSEWHERE: &[&str] = &[
    "",
    "\x1b[5H",
    "\n\n\n\n",
    "\x1b[2;6r\x1b[6H",
    "\x1b[1;5r\x1b[5H",
    "\x1b[1;5r\x1b[6H",
    "\x1b[?6h\x1b[3;6r\x1b[9H",
];

// On the last line, inside sequences, a string, a title and a character.
const PENDING: &[&[u8]] = &[
    b"\x1b[6H\x1b",
    b"\x1b[6H\x1b[",
    b"\x1b[6H\x1b[2",
    b"\x1b[6H\x1b(",
    b"\x1b[6H\x1bPx",
    b"\x1b[6H\x1b]0;x",
    b"\x1b[6H\x1bkx",
    b"\x1b[6H\xc3",
    b"\x1b[6H\xe6\x97",
];

// Whether all lines are to move up at each of the bytes, behind a start.
fn assert_all(
    rt: &(impl Abort + AllocGlobal),
    start: &[u8],
    bytes: &[u8],
    want: bool,
) -> Result<(), Fail> {
    let left = feed_reset(rt.alloc(), &[start])?;
    for &byte in bytes {
        let moves = left.terminal.moves_up(byte);
        assert_eq!(rt; moves, want, "at {byte} behind {}", start.escape_ascii());
    }
    Ok(())
}

#[test]
fn at_the_last_line_alone(rt: HostRuntime) -> Result<(), Fail> {
    for start in AT_FOOT {
        assert_all(&rt, start.as_bytes(), &LINE_FEEDS, true)?;
        assert_all(&rt, start.as_bytes(), &OTHERS, false)?;
    }
    for start in ELSEWHERE {
        assert_all(&rt, start.as_bytes(), &LINE_FEEDS, false)?;
    }
    Ok(())
}

#[test]
fn never_where_something_is_pending(rt: HostRuntime) -> Result<(), Fail> {
    for start in PENDING {
        assert_all(&rt, start, &LINE_FEEDS, false)?;
    }
    Ok(())
}
