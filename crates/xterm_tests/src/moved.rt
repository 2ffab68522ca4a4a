//! Lines that move between margins: where a terminal tells of them before they do.

use crate::told::feed_reset;
use std::process::Abort;
use std::test::Fail;
use xterm_term::MovedLines;

// Six lines; a start, bytes, and the lines that move: the first, the last, whether down, and at how many bytes.
const MOVES: &[(&str, &[u8], (u16, u16, bool, usize))] = &[
    ("\x1b[6H", b"\nx", (1, 6, false, 1)),
    ("\x1b[2;5r\x1b[5H", b"\x0b", (2, 5, false, 1)),
    ("\x1b[1;5r\x1b[5;12Hx", b"\x0c\n", (1, 5, false, 1)),
    ("\x1b[20h\x1b[3;4r\x1b[4H", b"\n", (3, 4, false, 1)),
    ("", b"\x1bM", (1, 6, true, 2)),
    ("\x1b[3;5r\x1b[3H", b"\x1bMx", (3, 5, true, 2)),
    ("\x1b[2;5r\x1b[3H", b"\x1b[L", (3, 5, true, 3)),
    ("\x1b[2;5r\x1b[3H", b"\x1b[Mx", (3, 5, false, 3)),
    ("\x1b[2;5r\x1b[5H", b"\x1b[M", (5, 5, false, 3)),
    ("\x1b[2;5r\x1b[2H", b"\x1b[L", (2, 5, true, 3)),
];

// Where none do, or it isn't told.
const STAYS: &[(&str, &[u8])] = &[
    ("\x1b[6H", b""),
    ("\x1b[6H", b"x\n"),
    ("\x1b[6H", b"\r"),
    ("\x1b[6H", b"\x1b"),
    ("\x1b[6H", b"\x1b["),
    ("\x1b[6H", b"\x1bD"),
    ("\x1b[6H\x1b", b"\n"),
    ("\x1b[6H\x1b[", b"L"),
    ("\x1b[6H\x1bkx", b"\n"),
    ("\x1b[2;5r\x1b[6H", b"\n"),
    ("\x1b[2;5r\x1b[4H", b"\n"),
    ("\x1b[2;5r\x1b[1H", b"\x1bM"),
    ("\x1b[2;5r\x1b[3H", b"\x1bM"),
    ("\x1b[2;5r\x1b[1H", b"\x1b[L"),
    ("\x1b[2;5r\x1b[6H", b"\x1b[M"),
    ("\x1b[2;5r\x1b[3H", b"\x1b[2M"),
];

fn parts(moved: MovedLines) -> (u16, u16, bool, usize) {
    (moved.top, moved.bottom, moved.down, moved.taken)
}

fn assert_moves(
    rt: &(impl Abort + AllocGlobal),
    start: &str,
    bytes: &[u8],
    want: Option<(u16, u16, bool, usize)>,
) -> Result<(), Fail> {
    let left = feed_reset(rt.alloc(), &[start.as_bytes()])?;
    let moved = left.terminal.moves_within(bytes).map(parts);
    assert!(rt;
        moved == want,
        "at {} behind {}",
        bytes.escape_ascii(),
        start.as_bytes().escape_ascii()
    );
    Ok(())
}

#[test]
fn lines_move_inside_the_margins(rt: HostRuntime) -> Result<(), Fail> {
    for &(start, bytes, want) in MOVES {
        assert_moves(&rt, start, bytes, Some(want))?;
    }
    Ok(())
}

#[test]
fn or_none_are_told(rt: HostRuntime) -> Result<(), Fail> {
    for &(start, bytes) in STAYS {
        assert_moves(&rt, start, bytes, None)?;
    }
    Ok(())
}
