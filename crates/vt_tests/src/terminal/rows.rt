//! Worked rows.
use super::{Left, all_leave, all_leave_by_profile, feed_reset, feed_reset_as, reset_as, told};
use std::alloc::Global;
use std::process::Abort;
use std::test::Fail;
use vt_parser::ParserState;
use vt_screen::Screen;
use vt_term::Profile;

// What is told after what comes first, so many `A`, and what comes then.
fn told_joined(alloc: Global, head: &[u8], count: usize, tail: &[u8]) -> Result<String, Fail> {
    let letters = vec![in alloc; b'A'; count]?;
    let left = feed_reset_as(alloc, Profile::Vt100, &[head, letters.as_slice(), tail])?;
    told(alloc, &left)
}

#[test]
fn shows_moves_and_erases(rt: HostRuntime) -> Result<(), Fail> {
    const ROWS: &[(&[u8], &str)] = &[
        (b"\x1b[31;4mX", "1:[U]X at 1 2 [U]"),
        (b"\x1b[3\x18m", "1:<2>m at 1 3"),
        (b"\x1b[38;5;1mX", "1:[BK]X at 1 2 [BK]"),
        (b"\x1b]0;title\x07ok", "1:ok at 1 3"),
        (b"\xc3\xa9", "1:<2><2> at 1 3"),
        (b"abc\x1b[2D\x1b[K", "1:a at 1 2"),
        (b"\x1b[24;1Hx\r\n", "23:x at 24 1"),
        (b"\x1b[99;79Hxy", "24: {78}xy at 24 80 wrap"),
        (b"ab\r\ncd\x1b[A\x1b[J", "1:ab at 1 3"),
        (b"ab\r\ncd\x1b[1J", "at 2 3"),
        (b"ab\r\ncd\x1b[2J", "at 2 3"),
        (b"abc\x08\x08\x1b[1K", "1:  c at 1 2"),
        (b"abc\x1b[2K", "at 1 4"),
    ];
    all_leave(&rt, ROWS)
}

#[test]
fn keeps_margins_tabs_saves_sets_and_sizes(rt: HostRuntime) -> Result<(), Fail> {
    const ROWS: &[(&[u8], &str)] = &[
        (
            b"\x1b[5;10r\x1b[?6h\x1b[99;1H\x1b[6n",
            "at 10 1 margins 5 10 DECOM sent E[6;1R",
        ),
        (b"\x1b[3;3H\x1b[10;5r\x1b[6n", "at 3 3 sent E[3;3R"),
        (b"\x1b(0lqk", "1:<13><18><12> at 1 4 G0 SpecialGraphics"),
        (
            b"a\r\nb\r\nc\r\nd\x1b[2;3r\x1b[3;1H\n",
            "1:a 2:c 4:d at 3 1 margins 2 3",
        ),
        (b"\x1b[7m\x1b[5;5H\x1b8X", "1:X at 1 2"),
        (b"\x1b[?3h\x1b[1;132HAB", "1: {131}A 2:B wide at 2 2"),
        (
            b"\x1b[1;5H\x1bH\r\tx",
            "1:    x at 1 6 tabs 5 9 17 25 33 41 49 57 65 73 81 89 97 105 113 121 129",
        ),
        (b"\x1b[2;4r\x1b[?6h\x1b[9Ax", "2:x at 2 2 margins 2 4 DECOM"),
        (b"ab\x1b#3\r\nab\x1b#4\x1b[1J", "2(Bottom): at 2 3"),
        (b"\x1b[2;3r\x1bMx", "1:x at 1 2 margins 2 3"),
        (b"\x1b(A#", "1:<30> at 1 2 G0 Uk"),
        (b"\x1b[?2l\x1bFa\x1b<a", "1:<2>a at 1 3 graphics"),
        (b"\x1b[?2l\x1bY%*X\x1bZ", "6: {10}X at 6 12 VT52 sent E/Z"),
        (b"\x1b[?2;7l", "at 1 1 VT52 no DECAWM"),
    ];
    all_leave(&rt, ROWS)
}

#[test]
fn answers(rt: HostRuntime) -> Result<(), Fail> {
    const ROWS: &[(&[u8], &str)] = &[
        (b"\x1b[x", "at 1 1 sent E[2;1;1;112;112;1;0x"),
        (b"\x1b[1;3q", "at 1 1 L1 L3"),
        (b"\x1b[1;3q\x1b[0;2q", "at 1 1 L2"),
    ];
    all_leave(&rt, ROWS)?;
    const DIFFERING: &[(&[u8], &str, &str)] = &[(
        b"\x1b[c\x1b[0c\x1b[00c\x1b[1c",
        "at 1 1 sent E[?1;2cE[?1;2cE[?1;2c",
        "at 1 1 sent E[?6cE[?6cE[?6c",
    )];
    all_leave_by_profile(&rt, DIFFERING)
}

#[test]
fn wraps_late(rt: HostRuntime) -> Result<(), Fail> {
    const ROWS: &[(&[u8], usize, &[u8], &str)] = &[
        (b"", 80, b"", "1:A{80} at 1 80 wrap"),
        (b"", 80, b"\x1b[6nB", "1:A{80} 2:B at 2 2 sent E[1;80R"),
        (b"", 80, b"\x08B", "1:A{78}BA at 1 80"),
        (b"", 50, b"\x1b#6", "1(Double):A{40} at 1 40"),
        (b"\x1b[?7l", 80, b"B", "1:A{79}B at 1 80 no DECAWM"),
        (b"\x1b[?7l", 200, b"B", "1:A{79}B at 1 80 no DECAWM"),
        (b"", 80, b"\x1b[0mB", "1:A{80} 2:B at 2 2"),
        (
            b"",
            80,
            b"\x1b7\x1b[5;1H\x1b8B",
            "1:A{80} 2:B at 2 2 saved(1 80 wrap)",
        ),
        (b"\x1b[3g\t", 1, b"", "1: {79}A at 1 80 wrap tabs"),
    ];
    for (head, count, tail, want) in ROWS {
        let text = told_joined(rt.alloc(), head, *count, tail)?;
        assert_eq!(rt; text.as_str(), *want, "at {head:?} {tail:?}");
    }
    Ok(())
}

// E in all cells up to column 80.
fn has_pattern(screen: &Screen) -> bool {
    for line in 1..25 {
        for column in 1..133 {
            let want = if column <= 80 { b'E' } else { b' ' };
            if screen.cell(line, column).glyph != want {
                return false;
            }
        }
    }
    true
}

#[test]
fn fills_with_the_pattern(rt: HostRuntime) -> Result<(), Fail> {
    let left = feed_reset(rt.alloc(), b"\x1b[7m\x1b[3;3H\x1b#8")?;
    let screen = left.terminal.screen();
    assert_eq!(rt; (has_pattern(screen), screen.cursor()), (true, (3, 3)));
    Ok(())
}

// Whether the sequence is one of CSI with this parameter begun.
fn is_at_parameter(state: &ParserState, parameter: u16) -> bool {
    match state {
        ParserState::Csi {
            private,
            params,
            over,
        } => !*private && params.as_slice() == [parameter].as_slice() && !*over,
        _ => false,
    }
}

#[test]
fn stands_inside_a_sequence(rt: HostRuntime) -> Result<(), Fail> {
    let left = feed_reset(rt.alloc(), b"\x1b[3")?;
    let glyph = left.terminal.screen().cell(1, 1).glyph;
    assert_eq!(rt;
        (is_at_parameter(left.terminal.parser_state(), 3), glyph),
        (true, 32)
    );
    Ok(())
}

#[test]
fn goes_on_inside_a_sequence(rt: HostRuntime) -> Result<(), Fail> {
    let mut left = feed_reset(rt.alloc(), b"\x1b[3")?;
    left.feed(&[b"1;4mX"])?;
    let rendition = left.terminal.screen().cell(1, 1).rendition;
    left.feed(&[b"\x1b[?2l\x1bY%"])?;
    let is_at_column = matches!(left.terminal.parser_state(), ParserState::Vt52Column(37));
    assert_eq!(rt;
        (rendition.underscore(), rendition.bold(), is_at_column),
        (true, false, true)
    );
    Ok(())
}

// A list that holds one answer, and a terminal that gives it again and so many times more.
fn answered(alloc: Global, times: usize) -> Result<Left, Fail> {
    let mut left = feed_reset(alloc, b"\x1b[5n")?;
    left.reports.set_place(0);
    for _ in 0..times {
        left.feed(&[b"\x1b[5n"])?;
    }
    Ok(left)
}

fn told_answered(alloc: Global, times: usize) -> Result<String, Fail> {
    let left = answered(alloc, times)?;
    told(alloc, &left)
}

#[test]
fn sends_at_the_end(rt: HostRuntime) -> Result<(), Fail> {
    let left = feed_reset(rt.alloc(), b"\x1b[5n")?;
    assert_eq!(rt; left.reports.place(), 4);
    Ok(())
}

#[test]
fn sends_at_the_place(rt: HostRuntime) -> Result<(), Fail> {
    const ROWS: &[(usize, &str)] = &[(1, "at 1 1 sent E[0n"), (2, "at 1 1 sent E[0nE[0n")];
    for (times, want) in ROWS {
        let text = told_answered(rt.alloc(), *times)?;
        assert_eq!(rt; text.as_str(), *want);
    }
    Ok(())
}

#[test]
fn moves_the_place(rt: HostRuntime) -> Result<(), Fail> {
    let left = answered(rt.alloc(), 2)?;
    assert_eq!(rt; (left.reports.place(), left.reports.bytes().len()), (8, 8));
    Ok(())
}

#[test]
fn cuts_the_list(rt: HostRuntime) -> Result<(), Fail> {
    let mut left = answered(rt.alloc(), 2)?;
    assert!(rt;
        left.reports.bytes().len() >= 6,
        "two answers are eight bytes"
    );
    left.reports.cut(6);
    let text = told(rt.alloc(), &left)?;
    assert_eq!(rt; text.as_str(), "at 1 1 sent E[0nE[");
    Ok(())
}

// The first glyph, the cursor, how many bytes were sent and the place.
fn parts(left: &Left) -> (u8, (u8, u8), usize, usize) {
    let screen = left.terminal.screen();
    (
        screen.cell(1, 1).glyph,
        screen.cursor(),
        left.reports.bytes().len(),
        left.reports.place(),
    )
}

// With the growth refused nothing is changed, and with memory all is done.
#[test]
fn a_refused_growth_changes_nothing(rt: HostRuntime) -> Result<(), Fail> {
    let mut left = reset_as(rt.alloc(), Profile::Vt100);
    if left.feed(&[b"x\x1b[5n"]).is_err() {
        assert_eq!(rt; parts(&left), (32, (1, 1), 0, 0));
        left.feed(&[b"x\x1b[5n"])?;
    }
    assert_eq!(rt; parts(&left), (b'x', (1, 2), 4, 4));
    Ok(())
}
