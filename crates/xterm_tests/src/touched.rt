//! Which lines a feed may have touched, told by hand: of the 6 lines a `#` each that is marked, and a `.` each that isn't.

use crate::packed::unpack;
use crate::told::{SIZE, feed_reset, reset_as};
use std::alloc::Global;
use std::process::Abort;
use std::test::Fail;
use xterm_term::Terminal;

const NONE: &str = "......";

const ALL: &str = "######";

// What was fed before, what is fed, and the lines that are marked then. There are 12 columns.
const ROWS: &[(&[u8], &[u8], &str)] = &[
    (b"", b"", NONE),
    (b"abc", b"", NONE),
    (b"", b"x", "#....."),
    (b"\x1b[5;7H", b"abc", "....#."),
    (b"\x1b[2;12H", b"xy", ".##..."),
    (b"\x1b[4;1H", b"\xe6\x97\xa5", "...#.."),
    // A mark goes onto the character before it.
    (b"\x1b[4;1He", b"\xcc\x81", "...#.."),
    (b"\x1b[2;12Hab", b"\x1b[9b", "..#..."),
    // What moves the cursor, or sets, touches nothing; nor does what isn't finished.
    (
        b"abc",
        b"\r\n\x1b[4;7H\x1b[A\t\x08\x1b[1;31m\x1bH\x1b7\x1b8\x1b[3;5r\x1b[?6h\x1b[c\x1b[",
        NONE,
    ),
    (b"", b"\xe6\x97", NONE),
    (b"", b"\x1b]0;a title\x07", NONE),
    // A line feed at the bottom margin scrolls the region, and one above it nothing.
    (b"\x1b[3;5r\x1b[5;1H", b"\n", "..###."),
    (b"\x1b[3;5r\x1b[4;1H", b"\n", NONE),
    (b"\x1b[3;5r\x1b[3;1H", b"\x1bM", "..###."),
    (b"\x1b[6;1H", b"\n", ALL),
    (b"\x1b[3;5r", b"\x1b[S", "..###."),
    (b"\x1b[3;5r", b"\x1b[2T", "..###."),
    (b"\x1b[3;5r\x1b[4;1H", b"\x1b[L", "...##."),
    (b"\x1b[3;5r\x1b[4;1H", b"\x1b[M", "...##."),
    // ED, EL, ECH, ICH and DCH.
    (b"\x1b[5;1H", b"\x1b[J", "....##"),
    (b"\x1b[3;1H", b"\x1b[1J", "###..."),
    (b"\x1b[3;1H", b"\x1b[2J", ALL),
    (b"\x1b[3;1H", b"\x1b[K", "..#..."),
    (b"\x1b[3;1H", b"\x1b[4X", "..#..."),
    (b"\x1b[3;1H", b"\x1b[2@", "..#..."),
    (b"\x1b[3;1H", b"\x1b[P", "..#..."),
    // Another sheet, DECALN and RIS.
    (b"", b"\x1b[?1049h", ALL),
    (b"\x1b[?1049hx", b"\x1b[?1049l", ALL),
    (b"", b"\x1b#8", ALL),
    (b"", b"\x1bc", ALL),
];

fn told_lines(alloc: Global, terminal: &Terminal) -> Result<String, Fail> {
    let screen = terminal.screen();
    let mut text = String::new(alloc);
    for line in 1..screen.lines() + 1 {
        let mark = if screen.is_touched(line) { '#' } else { '.' };
        text.push(mark)?;
    }
    Ok(text)
}

fn assert_lines(
    rt: &(impl Abort + AllocGlobal),
    terminal: &Terminal,
    want: &str,
    what: &[u8],
) -> Result<(), Fail> {
    let lines = told_lines(rt.alloc(), terminal)?;
    assert_eq!(rt; lines.as_str(), want, "{}", what.escape_ascii());
    Ok(())
}

fn assert_touched(
    rt: &(impl Abort + AllocGlobal),
    rows: &[(&[u8], &[u8], &str)],
) -> Result<(), Fail> {
    for (before, bytes, want) in rows {
        let left = feed_reset(rt.alloc(), &[*before, *bytes])?;
        assert_lines(rt, &left.terminal, want, bytes)?;
    }
    Ok(())
}

// What was fed before, what is fed, and for each line the one whose row it has then, or 0.
const ORIGINS: &[(&[u8], &[u8], [u16; 6])] = &[
    (b"", b"", [1, 2, 3, 4, 5, 6]),
    (b"", b"x", [0, 2, 3, 4, 5, 6]),
    (b"\x1b[6;1H", b"\n", [2, 3, 4, 5, 6, 0]),
    // A row that was written before it moved came from nowhere.
    (b"\x1b[6;1H", b"\nabc\n", [3, 4, 5, 6, 0, 0]),
    (b"\x1b[3;5r\x1b[5;1H", b"\n", [1, 2, 4, 5, 0, 6]),
    (b"\x1b[3;5r\x1b[3;1H", b"\x1bM", [1, 2, 0, 3, 4, 6]),
    (b"\x1b[3;5r", b"\x1b[2T", [1, 2, 0, 0, 3, 6]),
    (b"\x1b[3;5r\x1b[4;1H", b"\x1b[L", [1, 2, 3, 0, 4, 6]),
    (b"\x1b[3;5r\x1b[4;1H", b"\x1b[M", [1, 2, 3, 5, 0, 6]),
    // Rows that come back are the own ones again.
    (b"\x1b[3;5r", b"\x1b[S\x1b[T", [1, 2, 0, 4, 5, 6]),
    (b"", b"\x1b[?1049h", [0, 0, 0, 0, 0, 0]),
    (b"", b"\x1b#8", [0, 0, 0, 0, 0, 0]),
];

fn assert_origins(
    rt: &(impl Abort + AllocGlobal),
    terminal: &Terminal,
    want: &[u16],
    what: &[u8],
) -> Result<(), Fail> {
    let screen = terminal.screen();
    let mut origins = Vec::new(rt.alloc());
    for line in 1..screen.lines() + 1 {
        origins.push(screen.origin(line))?;
    }
    assert_eq!(rt; origins.as_slice(), want, "{}", what.escape_ascii());
    Ok(())
}

#[test]
fn origins(rt: HostRuntime) -> Result<(), Fail> {
    for (before, bytes, want) in ORIGINS {
        let left = feed_reset(rt.alloc(), &[*before, *bytes])?;
        assert_origins(&rt, &left.terminal, want, bytes)?;
    }
    Ok(())
}

#[test]
fn touched(rt: HostRuntime) -> Result<(), Fail> {
    assert_touched(&rt, ROWS)
}

fn assert_next(
    rt: &(impl Abort + AllocGlobal),
    terminal: &Terminal,
    from: u16,
    want: u16,
) -> Result<(), Fail> {
    let screen = terminal.screen();
    if from == 0 || from > screen.lines() + 1 {
        return Err(Fail::new("no line"));
    }
    assert_eq!(rt; screen.next_touched(from), want, "from {}", from);
    Ok(())
}

// What is fed to a screen of some lines, and from each line the next that is touched then.
fn assert_nexts(
    rt: &(impl Abort + AllocGlobal),
    lines: u16,
    bytes: &[u8],
    rows: &[(u16, u16)],
) -> Result<(), Fail> {
    let mut left = reset_as(rt.alloc(), (80, lines))?;
    left.feed(&[bytes])?;
    for (from, want) in rows {
        assert_next(rt, &left.terminal, *from, *want)?;
    }
    Ok(())
}

#[test]
fn next_touched(rt: HostRuntime) -> Result<(), Fail> {
    let rows = [(1, 3), (3, 3), (4, 20), (20, 20), (21, 25), (25, 25)];
    assert_nexts(&rt, 24, b"\x1b[3;1Hx\x1b[20;1Hy", &rows)
}

#[test]
fn next_touched_of_few(rt: HostRuntime) -> Result<(), Fail> {
    assert_nexts(&rt, 6, b"\x1b[5;1Hx", &[(1, 5), (5, 5), (6, 7), (7, 7)])
}

#[test]
fn all_is_touched_at_first(rt: HostRuntime) -> Result<(), Fail> {
    let first = reset_as(rt.alloc(), SIZE)?;
    assert_lines(&rt, &first.terminal, ALL, b"reset")
}

#[test]
fn all_is_touched_unpacked(rt: HostRuntime) -> Result<(), Fail> {
    let mut left = feed_reset(rt.alloc(), &[b"x"])?;
    let packed = left.terminal.pack(rt.alloc())?;
    unpack(&mut left, &packed)?;
    assert_lines(&rt, &left.terminal, ALL, b"unpacked")
}
