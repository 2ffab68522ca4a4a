//! What xterm 379 showed of these bytes in a window of 12x6, the cursor that it told (`ESC [6n`), and the cursor after
//! one more Z. The same rows stand in tests/xterm_rows.json.

use crate::told::{Left, feed_reset};
use sheet::{Cell, Kind};
use std::alloc::Global;
use std::fmt::Write;
use std::process::Abort;
use std::test::Fail;
use xterm_screen::Screen;

// The characters of a row, with their marks.
fn row_text(alloc: Global, row: &[Cell]) -> Result<String, Fail> {
    let mut text = String::new(alloc);
    for cell in row {
        if cell.kind() == Kind::Covered {
            continue;
        }
        text.push(cell.character())?;
        for n in 0..cell.mark_count() {
            text.push(cell.mark(n))?;
        }
    }
    Ok(text)
}

// The rows without the spaces at their ends, a bar between them, and none for those that are left at the end.
fn screen_text(alloc: Global, screen: &Screen) -> Result<String, Fail> {
    let mut text = String::new(alloc);
    for line in 1..screen.lines() + 1 {
        let row = row_text(alloc, screen.row(line))?;
        text.push_str(row.as_str().trim_end_matches(' '))?;
        text.push('|')?;
    }
    let mut shown = String::new(alloc);
    shown.push_str(text.as_str().trim_end_matches('|'))?;
    Ok(shown)
}

// The cursor that the last report tells, asked for now.
fn told_cursor(alloc: Global, left: &mut Left) -> Result<String, Fail> {
    let before = left.reports.bytes().len();
    left.feed(&[b"\x1b[6n"])?;
    let mut text = String::new(alloc);
    for byte in left.reports.bytes().iter().skip(before) {
        match *byte {
            b'0'..=b'9' => text.push(char::from(*byte))?,
            b';' => text.push(' ')?,
            _ => {}
        }
    }
    Ok(text)
}

// What is shown and told of bytes, and then of one more Z.
fn shown(alloc: Global, bytes: &[u8]) -> Result<String, Fail> {
    let mut left = feed_reset(alloc, &[bytes])?;
    let mut text = screen_text(alloc, left.terminal.screen())?;
    let cursor = told_cursor(alloc, &mut left)?;
    left.feed(&[b"Z"])?;
    let then = told_cursor(alloc, &mut left)?;
    write!(text, " at {cursor}, then {then}")?;
    Ok(text)
}

fn all_show(rt: &(impl Abort + AllocGlobal), rows: &[(&[u8], &str)]) -> Result<(), Fail> {
    for (bytes, want) in rows {
        let text = shown(rt.alloc(), bytes)?;
        assert_eq!(rt; text.as_str(), *want, "at {}", bytes.escape_ascii());
    }
    Ok(())
}

// The wrap is pending, and then comes something.
const WRAPS: &[(&[u8], &str)] = &[
    (b"123456789012\x00", "123456789012 at 1 12, then 2 2"),
    (b"123456789012\x08", "123456789012 at 1 11, then 1 12"),
    (b"123456789012\x1b(0", "123456789012 at 1 12, then 2 2"),
    (
        b"123456789012\x1b7\x1b[H\x1b8",
        "123456789012 at 1 12, then 2 2",
    ),
    (b"123456789012\x1bD", "123456789012 at 2 12, then 2 12"),
    (b"123456789012\x1bM", "|123456789012 at 1 12, then 1 12"),
    (
        b"123456789012\x1b[1;12H\xe6\x97\xa5",
        "123456789012|日 at 2 3, then 2 4",
    ),
    (b"123456789012\x1b[1K", " at 1 12, then 1 12"),
    (b"123456789012\x1b[20h", "123456789012 at 1 12, then 2 2"),
    (b"123456789012\x1b[2J", " at 1 12, then 1 12"),
    (b"123456789012\x1b[3J", "123456789012 at 1 12, then 2 2"),
    (b"123456789012\x1b[4l", "123456789012 at 1 12, then 2 2"),
    (b"123456789012\x1b[5J", "123456789012 at 1 12, then 2 2"),
    (b"123456789012\x1b[5n", "123456789012 at 1 12, then 2 2"),
    (b"123456789012\x1b[?1047h", " at 1 12, then 2 2"),
    (b"123456789012\x1b[?1048l", "123456789012 at 1 1, then 1 2"),
    (b"123456789012\x1b[?1h", "123456789012 at 1 12, then 2 2"),
    (b"123456789012\x1b[?47h", " at 1 12, then 2 2"),
    (b"123456789012\x1b[?5h", "123456789012 at 1 12, then 2 2"),
    (b"123456789012\x1b[?7h", "123456789012 at 1 12, then 2 2"),
    (b"123456789012\x1b[@", "12345678901 at 1 12, then 1 12"),
    (b"123456789012\x1b[B", "123456789012 at 2 12, then 2 12"),
    (b"123456789012\x1b[I", "123456789012 at 1 12, then 2 2"),
    (b"123456789012\x1b[K", "12345678901 at 1 12, then 1 12"),
    (b"123456789012\x1b[M", " at 1 1, then 1 2"),
    (b"123456789012\x1b[S", " at 1 12, then 2 2"),
    (b"123456789012\x1b[X", "12345678901 at 1 12, then 1 12"),
    (b"123456789012\x1b[e", "123456789012 at 2 12, then 2 12"),
    (b"123456789012\x1b[m", "123456789012 at 1 12, then 2 2"),
    (b"123456789012\n", "123456789012 at 2 12, then 2 12"),
    (b"123456789012\t", "123456789012 at 1 12, then 2 2"),
    (b"123456789012\x18", "123456789012 at 1 12, then 2 2"),
    (b"123456789012\x7f", "123456789012 at 1 12, then 2 2"),
    (b"123456789012\xff", "123456789012|� at 2 2, then 2 3"),
];

#[test]
fn a_pending_wrap(rt: HostRuntime) -> Result<(), Fail> {
    all_show(&rt, WRAPS)
}

// Two sheets, and what is saved of each.
const SHEETS: &[(&[u8], &str)] = &[
    (
        b"\x1b[2;4r\x1b[?1049h\x1b[5;1H\n\nx",
        "|||||x at 6 2, then 6 3",
    ),
    (b"\x1b[?1049;2004hx", "x at 1 2, then 1 3"),
    (b"a\x1b[3;3H\x1b[?47l\x1b8x", "x at 1 2, then 1 3"),
    (b"a\x1b[?1049hb\x1b[?1049;1049lc", "ac at 1 3, then 1 4"),
    (b"ab\x1b7\x1b[3;3H\x1b[?1049lx", "abx at 1 4, then 1 5"),
    (b"ab\x1b7\x1b[3;3H\x1bc\x1b8x", "x at 1 2, then 1 3"),
    (
        b"ab\x1b7\x1b[?47h\x1b[3;3H\x1b7\x1b[?47l\x1b8x",
        "abx at 1 4, then 1 5",
    ),
    (
        b"ab\x1b[3;3H\x1b7\x1b[?1049h\x1b[H\x1b8x",
        "x at 1 2, then 1 3",
    ),
    (
        b"ab\x1b[?1047h\x1b[3;3H\x1b[?1047lx",
        "ab||  x at 3 4, then 3 5",
    ),
    (
        b"ab\x1b[?1048h\x1b[?1049h\x1b[4;4H\x1b[?1048lx",
        "x at 1 2, then 1 3",
    ),
    (
        b"m\x1b[?1047halt\x1b[?1047l\x1b[?47hx",
        "    x at 1 6, then 1 7",
    ),
    (b"m\x1b[?1049hab\x1bcx", "x at 1 2, then 1 3"),
    (
        b"m\x1b[?47halt\x1b[?47l\x1b[?1049hx",
        "    x at 1 6, then 1 7",
    ),
    (
        b"main\x1b[?1049ha\x1b[3;3H\x1b[?1049hb\x1b[?1049lx",
        "mainx at 1 6, then 1 7",
    ),
    (b"main\x1b[?1049halt\x1b[?1049lx", "mainx at 1 6, then 1 7"),
    (
        b"main\x1b[?1049halt\x1b[?47l\x1b8x",
        "mainx at 1 6, then 1 7",
    ),
    (b"main\x1b[?1049l\x1b[?1049lx", "xain at 1 2, then 1 3"),
    (b"main\x1b[?47halt\x1b[?47lx", "main   x at 1 9, then 1 10"),
];

#[test]
fn sheets_and_saves(rt: HostRuntime) -> Result<(), Fail> {
    all_show(&rt, SHEETS)
}

// Characters of every width, marks, halves, and bytes that are none.
const CHARACTERS: &[(&[u8], &str)] = &[
    (b"12345678901\xe6\x97\xa5", "12345678901|日 at 2 3, then 2 4"),
    (
        b"1234567890\xe6\x97\xa5\x1b[1;12Hx",
        "1234567890 x at 1 12, then 2 2",
    ),
    (
        b"1234567890\xe6\x97\xa5\xe6\x9c\xac",
        "1234567890日|本 at 2 3, then 2 4",
    ),
    (
        b"\x1b[?7l123456789012\xe6\x97\xa5x",
        "12345678901x at 1 12, then 1 12",
    ),
    (b"\x1b]0;\xe3\x81\x82\x07y", "y at 1 2, then 1 3"),
    (
        b"\r\n\xe6\x97\xa5\xe6\x9c\xac\x1b[2;2H\x1b[1J",
        "|  本 at 2 2, then 2 3",
    ),
    (b"\x9b3Cy", "�3Cy at 1 5, then 1 6"),
    (b"\xc2\xa0y", "\u{a0}y at 1 3, then 1 4"),
    (b"\xe3\x81\x00y", "�y at 1 3, then 1 4"),
    (b"\xe3\x81\ny", "�| y at 2 3, then 2 4"),
    (b"\xe3\x81\xe3\x81\x82y", "�あy at 1 5, then 1 6"),
    (b"\xe3a", "�a at 1 3, then 1 4"),
    (b"\xef\xb7\x90y", "\u{fdd0}y at 1 3, then 1 4"),
    (b"\xf0\x9f\xbf\xbey", "\u{1fffe}y at 1 3, then 1 4"),
    (b"ab\x1b%Gc\x1b%@\xe3\x81\x82", "abcあ at 1 6, then 1 7"),
    (b"abc\x1b[3;1H\xcc\xa3", "abc at 3 1, then 3 2"),
    (b"abcdefghijkl\r\n\xcc\xa3", "abcdefghijkl at 2 1, then 2 2"),
    (
        b"abcdefghijklm\xcc\xa3",
        "abcdefghijkl|m\u{323} at 2 2, then 2 3",
    ),
    (b"e\xcc\x81x", "e\u{301}x at 1 3, then 1 4"),
    (b"x\xc2\x85y", "xy at 1 3, then 1 4"),
    (b"x\xc2\x9b3Cy", "x3Cy at 1 5, then 1 6"),
    (b"x\xc2\xady", "x\u{ad}y at 1 4, then 1 5"),
    (b"x\xcc\xa3\x1b[2b", "x\u{323}xx at 1 4, then 1 5"),
    (
        b"\xe6\x97\xa5\x1b[1;2Hx\xcc\xa3",
        " x\u{323} at 1 3, then 1 4",
    ),
    (
        b"\xe6\x97\xa5\xcc\xa3\xcc\xb2\xcc\xb1",
        "日\u{323}\u{332} at 1 3, then 1 4",
    ),
    (
        b"\xe6\x97\xa5\xe6\x9c\xac\x1b[1;1HX",
        "X 本 at 1 2, then 1 3",
    ),
    (
        b"\xe6\x97\xa5\xe6\x9c\xac\x1b[1;1H\x1b[@",
        " 日本 at 1 1, then 1 2",
    ),
    (
        b"\xe6\x97\xa5\xe6\x9c\xac\x1b[1;1H\x1b[X",
        "  本 at 1 1, then 1 2",
    ),
    (
        b"\xe6\x97\xa5\xe6\x9c\xac\x1b[1;2HX",
        " X本 at 1 3, then 1 4",
    ),
    (
        b"\xe6\x97\xa5\xe6\x9c\xac\x1b[1;2H\x1b[2P",
        " at 1 2, then 1 3",
    ),
    (
        b"\xe6\x97\xa5\xe6\x9c\xac\x1b[1;2H\x1b[4hX",
        " X 本 at 1 3, then 1 4",
    ),
    (
        b"\xe6\x97\xa5\xe6\x9c\xac\x1b[1;2H\x1b[@",
        "   本 at 1 2, then 1 3",
    ),
    (
        b"\xe6\x97\xa5\xe6\x9c\xac\x1b[1;2H\x1b[K",
        " at 1 2, then 1 3",
    ),
    (
        b"\xe6\x97\xa5\xe6\x9c\xac\x1b[1;2H\x1b[X",
        "  本 at 1 2, then 1 3",
    ),
    (b"\xe6\x97\xa5\xe6\x9c\xac\x1b[1;3HX", "日X at 1 4, then 1 5"),
    (
        b"\xe6\x97\xa5\xe6\x9c\xacab\x1b[1;2H\x1b[2P",
        "  ab at 1 2, then 1 3",
    ),
];

#[test]
fn characters(rt: HostRuntime) -> Result<(), Fail> {
    all_show(&rt, CHARACTERS)
}

// What ends sequences and strings, and what has no effect.
const BYTES: &[(&[u8], &str)] = &[
    (b"\x1b[!pab", "ab at 1 3, then 1 4"),
    (b"\x1b[31mab\x1b[!pcd", "abcd at 1 5, then 1 6"),
    (b"\x7fy", "y at 1 2, then 1 3"),
    (b"a\x1b 6b", "ab at 1 3, then 1 4"),
    (b"a\x1bP0;1|x\x1b\\b", "ab at 1 3, then 1 4"),
    (b"a\x1b\x1b[Cb", "a b at 1 4, then 1 5"),
    (b"a\x1b]0;x\x1b\\b", "ab at 1 3, then 1 4"),
    (b"a\x1b]0;x\x18b", "ab at 1 3, then 1 4"),
    (b"a\x1b_x\x18b", "ab at 1 3, then 1 4"),
    (b"ab\x1b[1:2Hx", "abx at 1 4, then 1 5"),
    (b"ab\x1b[?7l\x1b[!p", "ab at 1 3, then 1 4"),
    (b"x\x1b[1\x1a2by", "x2by at 1 5, then 1 6"),
    (b"x\x1b\x182b", "x2b at 1 4, then 1 5"),
];

#[test]
fn bytes(rt: HostRuntime) -> Result<(), Fail> {
    all_show(&rt, BYTES)
}

// Margins, tabs, moves, erasures and repetitions.
const SEQUENCES: &[(&[u8], &str)] = &[
    (b"\x1b(0_`a}~\x1b(B", " ◆▒£· at 1 6, then 1 7"),
    (b"\x1b(Kabc{", "abc{ at 1 5, then 1 6"),
    (b"\x1b[1;2;3Hx", " x at 1 3, then 1 4"),
    (
        b"\x1b[20l\x1b[20hab\x0bcd\x0cef",
        "ab|cd|ef at 3 3, then 3 4",
    ),
    (
        b"\x1b[2;4ra\x1b[2;1Hb\x1b[3;1Hc\x1b[4;1Hd\x1b[2;1H\x1b[2Mx",
        "a|x at 2 2, then 2 3",
    ),
    (b"\x1b[3;4r\x1b[1;1H\x1bM\x1bMx", "x at 1 2, then 1 3"),
    (b"\x1b[3;4r\x1b[3;1Hx\x1b[9Ey", "||x|y at 4 2, then 4 3"),
    (b"\x1b[3;4r\x1b[5;1Hx\x1b[3Ay", "|| y||x at 3 3, then 3 4"),
    (b"\x1b[3;4r\x1b[6;1Hx\x1b[9Ay", "|| y|||x at 3 3, then 3 4"),
    (
        b"\x1b[3;4r\x1b[?6h\x1b[4;1Hx\x1b[?6ly",
        "y|||x at 1 2, then 1 3",
    ),
    (b"\x1b[3;4r\x1b[?6h\x1b[9dx", "|||x at 2 2, then 2 3"),
    (
        b"\x1b[3;4r\x1b[?6hx\x1b#8y",
        "yEEEEEEEEEEE|EEEEEEEEEEEE|EEEEEEEEEEEE|EEEEEEEEEEEE|EEEEEEEEEEEE|EEEEEEEEEEEE at 1 2, then 1 3",
    ),
    (b"\x1b[3;Hx", "||x at 3 2, then 3 3"),
    (b"\x1b[4hab\x1b[4l\x1b[Hc\x1b[4h12", "c12b at 1 4, then 1 5"),
    (b"\x1b[5GA\x1bH\r\tB", "    AB at 1 7, then 1 8"),
    (
        b"\x1b[6;1H123456789012\n",
        "||||123456789012 at 6 12, then 6 12",
    ),
    (b"\x1b[;5Hx", "    x at 1 6, then 1 7"),
    (b"\x1b[?5g\tx", "        x at 1 10, then 1 11"),
    (b"a\x1b[0@x", "ax at 1 3, then 1 4"),
    (b"a\x1b[0Sx", " x at 1 3, then 1 4"),
    (b"a\x1b[1;2;3;4;5T", "a at 1 2, then 1 3"),
    (b"a\x1b[1Tx", " x|a at 1 3, then 1 4"),
    (b"a\x1b[3gb\tc", "ab         c at 1 12, then 2 2"),
    (b"a\x1b[?3lb", "ab at 1 3, then 1 4"),
    (b"a\r\nb\x1b[99S", " at 2 2, then 2 3"),
    (b"a\r\nb\r\nc\x1b[2;3r\x1b[T", "a||b at 1 1, then 1 2"),
    (b"ab\x1b[0;0rx", "xb at 1 2, then 1 3"),
    (b"ab\x1b[3rx", "xb at 1 2, then 1 3"),
    (b"ab\x1b[6;6rx", "abx at 1 4, then 1 5"),
    (b"ab\x1b[;3rx\x1b[3;1Hy\nz", "|y| z at 3 3, then 3 4"),
    (b"ab\x0bcd\x0cef", "ab|  cd|    ef at 3 7, then 3 8"),
    (
        b"x\x1b[99b",
        "xxxxxxxxxxxx|xxxxxxxxxxxx|xxxxxxxxxxxx|xxxxxxxxxxxx|xxxxxxxxxxxx|xxxx at 6 5, then 6 6",
    ),
];

#[test]
fn sequences(rt: HostRuntime) -> Result<(), Fail> {
    all_show(&rt, SEQUENCES)
}
