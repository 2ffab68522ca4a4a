//! Which lines a feed may have touched, told by hand: of the 24 lines a `#` each that is marked, and a `.` each that isn't.
use super::feed_reset_as;
use std::alloc::Global;
use std::process::Abort;
use std::test::Fail;
use vt_term::{Profile, Terminal};

const NONE: &str = "........................";

const ALL: &str = "########################";

// What was fed before, what is fed, and the lines that are marked then.
const ROWS: &[(&[u8], &[u8], &str)] = &[
    (b"", b"", NONE),
    (b"abc", b"", NONE),
    (b"", b"x", "#......................."),
    (b"\x1b[5;7H", b"abc", "....#..................."),
    (b"\x1b[2;80H", b"xy", ".##....................."),
    // What moves the cursor, or sets, touches nothing.
    (
        b"abc",
        b"\r\n\x1b[7;7H\x1b[A\t\x08\x1b[1m\x1bH\x1b7\x1b8\x1b[3;6r\x1b[?6h\x1b[c",
        NONE,
    ),
    // A line feed at the bottom margin scrolls the region, and one above it nothing.
    (b"\x1b[3;6r\x1b[6;1H", b"\n", "..####.................."),
    (b"\x1b[3;6r\x1b[5;1H", b"\n", NONE),
    (b"\x1b[3;6r\x1b[3;1H", b"\x1bM", "..####.................."),
    (b"\x1b[24;1H", b"\n", ALL),
    // ED, EL and DECDWL.
    (b"\x1b[22;1H", b"\x1b[J", ".....................###"),
    (b"\x1b[3;1H", b"\x1b[1J", "###....................."),
    (b"\x1b[3;1H", b"\x1b[2J", ALL),
    (b"\x1b[3;1H", b"\x1b[K", "..#....................."),
    (b"\x1b[3;1H", b"\x1b#6", "..#....................."),
    // DECALN, DECCOLM and RIS.
    (b"", b"\x1b#8", ALL),
    (b"", b"\x1b[?3h", ALL),
    (b"", b"\x1bc", ALL),
];

// The same of a VT102: IL, DL and DCH, and a character in insert mode.
const EDITS: &[(&[u8], &[u8], &str)] = &[
    (b"\x1b[3;6r\x1b[4;1H", b"\x1b[L", "...###.................."),
    (
        b"\x1b[3;6r\x1b[4;1H",
        b"\x1b[2M",
        "...###..................",
    ),
    (b"\x1b[3;6r\x1b[8;1H", b"\x1b[L", NONE),
    (b"\x1b[4;1H", b"\x1b[P", "...#...................."),
    (b"\x1b[4h\x1b[4;1H", b"x", "...#...................."),
];

fn told_lines(alloc: Global, terminal: &Terminal) -> Result<String, Fail> {
    let mut text = String::new(alloc);
    for line in 1..25 {
        let mark = if terminal.screen().is_touched(line) {
            '#'
        } else {
            '.'
        };
        text.push(mark)?;
    }
    Ok(text)
}

fn assert_touched(
    rt: &(impl Abort + AllocGlobal),
    profile: Profile,
    rows: &[(&[u8], &[u8], &str)],
) -> Result<(), Fail> {
    for (before, bytes, want) in rows {
        let left = feed_reset_as(rt.alloc(), profile, &[*before, *bytes])?;
        let lines = told_lines(rt.alloc(), &left.terminal)?;
        assert_eq!(rt;
            lines.as_str(),
            *want,
            "{} after {}",
            bytes.escape_ascii(),
            before.escape_ascii()
        );
    }
    Ok(())
}

#[test]
fn touched(rt: HostRuntime) -> Result<(), Fail> {
    assert_touched(&rt, Profile::Vt100, ROWS)
}

#[test]
fn touched_by_edits(rt: HostRuntime) -> Result<(), Fail> {
    assert_touched(&rt, Profile::Vt102, EDITS)
}

#[test]
fn all_is_touched_at_first_and_unpacked(rt: HostRuntime) -> Result<(), Fail> {
    let mut terminal = Terminal::reset();
    let lines = told_lines(rt.alloc(), &terminal)?;
    assert_eq!(rt; lines.as_str(), ALL);
    let left = feed_reset_as(rt.alloc(), Profile::Vt100, &[b"x"])?;
    let packed = left.terminal.pack(rt.alloc())?;
    terminal.unpack(&packed);
    let lines = told_lines(rt.alloc(), &terminal)?;
    assert_eq!(rt; lines.as_str(), ALL);
    Ok(())
}
