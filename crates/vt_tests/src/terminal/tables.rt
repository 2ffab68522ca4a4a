//! Each row of the tables once from the reset, in both modes where it has one, and in both profiles.
use super::{all_leave, all_leave_by_profile};
use std::test::Fail;

#[test]
fn controls(rt: HostRuntime) -> Result<(), Fail> {
    const ROWS: &[(&[u8], &str)] = &[
        (b"ab\x08", "1:ab at 1 2"),
        (b"a\t", "1:a at 1 9"),
        (b"ab\n", "1:ab at 2 3"),
        (b"ab\x0b", "1:ab at 2 3"),
        (b"ab\x0c", "1:ab at 2 3"),
        (b"\x1b[20hab\n", "1:ab at 2 1 LNM"),
        (b"ab\r", "1:ab at 1 1"),
        (b"\x1b)0\x0eq", "1:<18> at 1 2 G1 SpecialGraphics SO"),
        (b"\x1b)0\x0e\x0fq", "1:q at 1 2 G1 SpecialGraphics"),
        (b"a\x05", "1:a at 1 2"),
        (b"a\x00\x07\x11\x13\x18\x1a\x7f", "1:a at 1 2"),
    ];
    all_leave(&rt, ROWS)
}

#[test]
fn controls_in_vt52_mode(rt: HostRuntime) -> Result<(), Fail> {
    const ROWS: &[(&[u8], &str)] = &[
        (b"\x1b[?2lab\x08", "1:ab at 1 2 VT52"),
        (b"\x1b[?2la\t", "1:a at 1 9 VT52"),
        (b"\x1b[?2lab\n", "1:ab at 2 3 VT52"),
        (b"\x1b[?2lab\x0b", "1:ab at 2 3 VT52"),
        (b"\x1b[?2lab\x0c", "1:ab at 2 3 VT52"),
        (b"\x1b[20h\x1b[?2lab\n", "1:ab at 2 1 VT52 LNM"),
        (b"\x1b[?2lab\r", "1:ab at 1 1 VT52"),
        (b"\x1b)0\x1b[?2l\x0eq", "1:q at 1 2 VT52 G1 SpecialGraphics"),
        (
            b"\x1b)0\x0e\x1b[?2l\x0fq",
            "1:q at 1 2 VT52 G1 SpecialGraphics SO",
        ),
        (b"\x1b[?2la\x05", "1:a at 1 2 VT52"),
        (b"\x1b[?2la\x00\x07\x11\x13\x18\x1a\x7f", "1:a at 1 2 VT52"),
    ];
    all_leave(&rt, ROWS)
}

#[test]
fn escape_sequences(rt: HostRuntime) -> Result<(), Fail> {
    const ROWS: &[(&[u8], &str)] = &[
        (b"ab\x1bD", "1:ab at 2 3"),
        (b"ab\x1bE", "1:ab at 2 1"),
        (b"ab\r\nc\x1bM", "1:ab 2:c at 1 2"),
        (
            b"abc\x1bH\r\t",
            "1:abc at 1 4 tabs 4 9 17 25 33 41 49 57 65 73 81 89 97 105 113 121 129",
        ),
        (b"ab\x1b[7m\x1b[?5h\x1b[5n\x1bc", "at 1 1 sent E[0n"),
        (b"ab\x1b7", "1:ab at 1 3 saved(1 3)"),
        (
            b"\x1b[7mab\x1b7\x1b[m\x1b[5;5H\x1b8",
            "1:[R]ab at 1 3 [R] saved(1 3 [R])",
        ),
        (b"\x1b[7m\x1b)0\x0e\x1b[?6h\x1b[5;5H\x1b8", "at 1 1"),
        (b"\x1b=", "at 1 1 DECKPAM"),
        (b"\x1b=\x1b>", "at 1 1"),
        (b"\x1b#3", "1(Top): at 1 1"),
        (b"\x1b#4", "1(Bottom): at 1 1"),
        (b"\x1b#6\x1b#5", "at 1 1"),
        (b"\x1b#6", "1(Double): at 1 1"),
        (b"\x1b#7\x1bN", "at 1 1"),
    ];
    all_leave(&rt, ROWS)
}

#[test]
fn designations(rt: HostRuntime) -> Result<(), Fail> {
    const ROWS: &[(&[u8], &str)] = &[
        (b"\x1b(A", "at 1 1 G0 Uk"),
        (b"\x1b(A\x1b(B", "at 1 1"),
        (b"\x1b(0", "at 1 1 G0 SpecialGraphics"),
        (b"\x1b(0\x1b(1", "at 1 1"),
        (b"\x1b(2", "at 1 1 G0 SpecialGraphics"),
        (b"\x1b)A", "at 1 1 G1 Uk"),
        (b"\x1b)A\x1b)B", "at 1 1"),
        (b"\x1b)0", "at 1 1 G1 SpecialGraphics"),
        (b"\x1b)0\x1b)1", "at 1 1"),
        (b"\x1b)2", "at 1 1 G1 SpecialGraphics"),
        (b"\x1b(C\x1b*A", "at 1 1"),
        (
            b"\x1b(0_`ajx~^!",
            "1:<0><1><2><11><25><31>^! at 1 9 G0 SpecialGraphics",
        ),
    ];
    all_leave(&rt, ROWS)
}

#[test]
fn control_sequences_that_move(rt: HostRuntime) -> Result<(), Fail> {
    const ROWS: &[(&[u8], &str)] = &[
        (b"\x1b[5;5H\x1b[2A", "at 3 5"),
        (b"\x1b[5;5H\x1b[A\x1b[0A", "at 3 5"),
        (b"\x1b[5;5H\x1b[2B", "at 7 5"),
        (b"\x1b[99B", "at 24 1"),
        (b"\x1b[5;5H\x1b[2C", "at 5 7"),
        (b"\x1b[99C", "at 1 80"),
        (b"\x1b[5;5H\x1b[2D", "at 5 3"),
        (b"\x1b[5;5H\x1b[99D", "at 5 1"),
        (b"\x1b[3;4H", "at 3 4"),
        (b"\x1b[3;4H\x1b[0;0H", "at 1 1"),
        (b"\x1b[3;4f", "at 3 4"),
        (b"\x1b[2;5r", "at 1 1 margins 2 5"),
        (b"\x1b[9;9H\x1b[3r", "at 1 1 margins 3 24"),
        (b"\x1b[2;5r\x1b[r", "at 1 1"),
        (b"\x1b[2;5r\x1b[?6h\x1b[2;2H", "at 3 2 margins 2 5 DECOM"),
    ];
    all_leave(&rt, ROWS)
}

#[test]
fn control_sequences_that_set(rt: HostRuntime) -> Result<(), Fail> {
    const ROWS: &[(&[u8], &str)] = &[
        (b"ab\r\ncd\r\nef\x1b[2;2H\x1b[J", "1:ab 2:c at 2 2"),
        (b"ab\r\ncd\r\nef\x1b[2;1H\x1b[1J", "2: d 3:ef at 2 1"),
        (b"ab\r\ncd\r\nef\x1b[2;2H\x1b[2J\x1b[3J", "at 2 2"),
        (b"abc\x1b[1;2H\x1b[K", "1:a at 1 2"),
        (b"abc\x1b[1;2H\x1b[1K", "1:  c at 1 2"),
        (b"abc\x1b[1;2H\x1b[2K\x1b[3K", "at 1 2"),
        (
            b"a\t\x1b[g\r\t",
            "1:a at 1 17 tabs 17 25 33 41 49 57 65 73 81 89 97 105 113 121 129",
        ),
        (b"\x1b[3g\t", "at 1 80 tabs"),
        (b"\x1b[1g\t", "at 1 9"),
        (b"\x1b[1m\x1b[4m\x1b[5m\x1b[7m", "at 1 1 [BUKR]"),
        (b"\x1b[1;4;5;7;2;38m", "at 1 1 [BUKR]"),
        (b"\x1b[1;4;0;7m", "at 1 1 [R]"),
        (b"\x1b[1m\x1b[m", "at 1 1"),
        (b"\x1b[20h", "at 1 1 LNM"),
        (b"\x1b[20h\x1b[4;20l", "at 1 1"),
        (b"\x1b[1;2;3;4;5q", "at 1 1 L1 L2 L3 L4"),
        (b"\x1b[4q\x1b[q", "at 1 1"),
    ];
    all_leave(&rt, ROWS)
}

#[test]
fn reports(rt: HostRuntime) -> Result<(), Fail> {
    const ROWS: &[(&[u8], &str)] = &[
        (b"\x1b[1c", "at 1 1"),
        (b"\x1b[5n", "at 1 1 sent E[0n"),
        (b"\x1b[3;4H\x1b[6n", "at 3 4 sent E[3;4R"),
        (
            b"\x1b[2;5r\x1b[?6h\x1b[2;2H\x1b[6n",
            "at 3 2 margins 2 5 DECOM sent E[2;2R",
        ),
        (b"\x1b[n\x1b[7n", "at 1 1"),
        (b"\x1b[0x", "at 1 1 sent E[2;1;1;112;112;1;0x"),
        (b"\x1b[1x", "at 1 1 sent E[3;1;1;112;112;1;0x"),
        (b"\x1b[2x", "at 1 1"),
        (b"\x1b[?5n\x1b[?c", "at 1 1"),
    ];
    all_leave(&rt, ROWS)
}

#[test]
fn rows_that_differ(rt: HostRuntime) -> Result<(), Fail> {
    const ROWS: &[(&[u8], &str, &str)] = &[
        (b"\x1bZ", "at 1 1 sent E[?1;2c", "at 1 1 sent E[?6c"),
        (b"\x1b[c", "at 1 1 sent E[?1;2c", "at 1 1 sent E[?6c"),
        (b"\x1b[4;20h", "at 1 1 LNM", "at 1 1 LNM IRM"),
    ];
    all_leave_by_profile(&rt, ROWS)
}

#[test]
fn private_modes(rt: HostRuntime) -> Result<(), Fail> {
    const ROWS: &[(&[u8], &str)] = &[
        (b"\x1b[?1h", "at 1 1 DECCKM"),
        (b"\x1b[?1h\x1b[?1l", "at 1 1"),
        (b"\x1b[?2h", "at 1 1"),
        (b"\x1b[?2l", "at 1 1 VT52"),
        (b"ab\x1b[?3h", "wide at 1 1"),
        (b"\x1b[2;5rab\x1b[?3l", "at 1 1"),
        (b"\x1b[?4h", "at 1 1 DECSCLM"),
        (b"\x1b[?4h\x1b[?4l", "at 1 1"),
        (b"\x1b[?5h", "at 1 1 DECSCNM"),
        (b"\x1b[?5h\x1b[?5l", "at 1 1"),
        (b"\x1b[2;5r\x1b[?6h", "at 2 1 margins 2 5 DECOM"),
        (b"\x1b[2;5r\x1b[?6h\x1b[?6l", "at 1 1 margins 2 5"),
        (b"\x1b[?7l", "at 1 1 no DECAWM"),
        (b"\x1b[?7l\x1b[?7h", "at 1 1"),
        (b"\x1b[?8h", "at 1 1 DECARM"),
        (b"\x1b[?8h\x1b[?8l", "at 1 1"),
        (b"\x1b[?9h", "at 1 1 DECINLM"),
        (b"\x1b[?9h\x1b[?9l", "at 1 1"),
        (b"\x1b[?25h\x1b[?1049h", "at 1 1"),
        (b"\x1b[?7m\x1b[?1q", "at 1 1"),
    ];
    all_leave(&rt, ROWS)
}

#[test]
fn vt52_sequences(rt: HostRuntime) -> Result<(), Fail> {
    const ROWS: &[(&[u8], &str)] = &[
        (b"\x1b[5;5H\x1b[?2l\x1bA", "at 4 5 VT52"),
        (b"\x1b[5;5H\x1b[?2l\x1bB", "at 6 5 VT52"),
        (b"\x1b[5;5H\x1b[?2l\x1bC", "at 5 6 VT52"),
        (b"\x1b[5;5H\x1b[?2l\x1bD", "at 5 4 VT52"),
        (b"\x1b[?2l\x1bFa", "1:<2> at 1 2 VT52 graphics"),
        (b"\x1b[?2l\x1bF\x1bGa", "1:a at 1 2 VT52"),
        (b"\x1b[5;5H\x1b[?2l\x1bH", "at 1 1 VT52"),
        (b"\x1b[5;5H\x1b[?2l\x1bI", "at 4 5 VT52"),
        (b"ab\r\ncd\x1b[1;2H\x1b[?2l\x1bJ", "1:a at 1 2 VT52"),
        (b"ab\r\ncd\x1b[1;2H\x1b[?2l\x1bK", "1:a 2:cd at 1 2 VT52"),
        (b"\x1b[?2l\x1bY#$", "at 4 5 VT52"),
        (b"\x1b[?2l\x1bZ", "at 1 1 VT52 sent E/Z"),
        (b"\x1b[?2l\x1b=", "at 1 1 VT52 DECKPAM"),
        (b"\x1b[?2l\x1b=\x1b>", "at 1 1 VT52"),
        (
            b"\x1b)0\x0e\x1b[?2l\x1b<q",
            "1:<18> at 1 2 G1 SpecialGraphics SO",
        ),
        (b"\x1b[?2l\x1bM\x1bc\x1b7", "at 1 1 VT52"),
    ];
    all_leave(&rt, ROWS)
}
