//! What a VT102 has more than a VT100: lines and cells that are inserted and deleted.
use super::all_leave_by_profile;
use super::changes::{all_change_as, all_change_by_profile};
use super::starts::{SET, WRAPPING};
use std::test::Fail;
use vt_term::Profile;

// Four lines of a letter each, and the margins 2 and 3.
const FOUR_LINES: &[u8] = b"a\r\nb\r\nc\r\nd\x1b[2;3r";

// 79 times A and then B, and home.
const FULL_LINE: &[u8] =
    b"AAAAAAAAAAAAAAAAAAAAAAAAAAAAAAAAAAAAAAAAAAAAAAAAAAAAAAAAAAAAAAAAAAAAAAAAAAAAAAAB\x1b[H";

#[test]
fn inserts_and_deletes_lines(rt: HostRuntime) -> Result<(), Fail> {
    const ROWS: &[(&[u8], &str, &str)] = &[
        (b"\x1b[2;1H\x1b[L", "at 2 1", "2: 3:b at 2 1"),
        (b"\x1b[2;1H\x1b[5M", "at 2 1", "2-3: at 2 1"),
        (b"\x1b[1;2H\x1b[L", "at 1 2", "at 1 2"),
    ];
    all_change_by_profile(&rt, &[FOUR_LINES], ROWS)
}

#[test]
fn inserts_and_deletes_cells(rt: HostRuntime) -> Result<(), Fail> {
    const ROWS: &[(&[u8], &str, &str)] = &[
        (
            b"abcdef\x1b[1;2H\x1b[2P",
            "1:abcdef at 1 2",
            "1:adef at 1 2",
        ),
        (
            b"abc\x1b[1;2H\x1b[4hXY\x1b[4lZ",
            "1:aXYZ at 1 5",
            "1:aXYZc at 1 5",
        ),
        (
            b"abc\x1b[1;2H\x1b[4hVWXYZ",
            "1:aVWXYZ at 1 7",
            "1:aVWXYZbc at 1 7 IRM",
        ),
        (
            b"ab\x1b#6\x1b[L",
            "1(Double):ab at 1 3",
            "2(Double):ab at 1 1",
        ),
        (
            b"\x1b[1ma\x1b[7mb\x1b[mc\x1b[H\x1b[4hX",
            "1:X[BR]b[]c at 1 2",
            "1:X[B]a[BR]b[]c at 1 2 IRM",
        ),
        (
            b"\x1b[1ma\x1b[7mb\x1b[mc\x1b[H\x1b[P",
            "1:[B]a[BR]b[]c at 1 1",
            "1:[BR]b[]c at 1 1",
        ),
        (
            b"ab\x1b[7m\x1b[H\x1b[P",
            "1:ab at 1 1 [R]",
            "1:b at 1 1 [R]",
        ),
        (b"a\x1b[7m\x1b[L", "1:a at 1 2 [R]", "2:a at 1 1 [R]"),
    ];
    all_leave_by_profile(&rt, ROWS)
}

#[test]
fn inserts_into_a_full_line(rt: HostRuntime) -> Result<(), Fail> {
    const ROWS: &[(&[u8], &str, &str)] = &[
        (b"\x1b[4hC", "1:CA{78}B at 1 2", "1:CA{79} at 1 2 +IRM"),
        (
            b"\x1b[4hCDE",
            "1:CDEA{76}B at 1 4",
            "1:CDEA{77} at 1 4 +IRM",
        ),
        (
            b"\x1b[1;80H\x1b[4hCDE",
            "1:A{79}C 2:DE at 2 3",
            "1:A{79}C 2:DE at 2 3 +IRM",
        ),
        (b"\x1b[1;79H\x1b[P", "at 1 79", "1:A{78}B at 1 79"),
    ];
    all_change_by_profile(&rt, &[FULL_LINE], ROWS)
}

// The cursor is in line 7, from the margins 5 to 9, and column 3 of 132.
const LINES_OF_SET: &[(&[u8], &str)] = &[
    (b"\x1b[L", "7: 8:ghi {63}j {64}k 9(Bottom):ll at 7 1"),
    (b"\x1b[0L", "7: 8:ghi {63}j {64}k 9(Bottom):ll at 7 1"),
    (b"\x1b[2L", "7-8: 9:ghi {63}j {64}k at 7 1"),
    (b"\x1b[3L", "7-9: at 7 1"),
    (b"\x1b[4L", "7-9: at 7 1"),
    (b"\x1b[9999;1L", "7-9: at 7 1"),
    (b"\x1b[M", "7(Bottom):ll 8:mm 9: at 7 1"),
    (b"\x1b[0M", "7(Bottom):ll 8:mm 9: at 7 1"),
    (b"\x1b[2M", "7:mm 8-9: at 7 1"),
    (b"\x1b[3M", "7-9: at 7 1"),
    (b"\x1b[4M", "7-9: at 7 1"),
    (b"\x1b[9999;1M", "7-9: at 7 1"),
    (
        b"\x1b[H\x1b[L",
        "5: 6:ee 7(Double):ff 8:ghi {63}j {64}k 9(Bottom):ll at 5 1",
    ),
    (
        b"\x1b[2;5H\x1b[L",
        "6: 7(Double):ff 8:ghi {63}j {64}k 9(Bottom):ll at 6 1",
    ),
    (b"\x1b[2;5H\x1b[2M", "6(Bottom):ll 7:mm 8-9: at 6 1"),
    (b"\x1b[5;2H\x1b[L", "9: at 9 1"),
    (b"\x1b[5;2H\x1b[M", "9: at 9 1"),
    (b"\x1b[?6l\x1b[4;2H\x1b[L\x1b[M", "at 4 2 -DECOM"),
    (b"\x1b[?6l\x1b[10;2H\x1b[L\x1b[M", "at 10 2 -DECOM"),
    (b"\x1b[?L\x1b[?M\x1b[1:2L\x1b[1 M", ""),
];

const CELLS_OF_SET: &[(&[u8], &str)] = &[
    (b"\x1b[P", "7:gh {63}j {64}k"),
    (b"\x1b[0P", "7:gh {63}j {64}k"),
    (b"\x1b[64P", "7:ghj {64}k"),
    (b"\x1b[129P", "7:ghk"),
    (b"\x1b[130P", "7:gh"),
    (b"\x1b[9999;1P", "7:gh"),
    (b"\x1b[3;1H\x1b[2P", "7:i {63}j {64}k at 7 1"),
    (b"\x1b[3;132H\x1b[P", "7:ghi {63}j at 7 132"),
    (b"\x1b[2;2H\x1b[P", "6(Double):f at 6 2"),
    (b"\x1b[2;1H\x1b[66P", "6(Double): at 6 1"),
    (b"\x1b[?6l\x1b[10;2H\x1b[P", "10(Top):n at 10 2 -DECOM"),
    (b"\x1b[?P", ""),
];

const INSERT_MODE_OF_SET: &[(&[u8], &str)] = &[
    (b"\x1b[4h", "+IRM"),
    (b"\x1b[4h\x1b[4l", ""),
    (b"\x1b[4l", ""),
    (b"\x1b[20;4l", "-LNM"),
    (b"\x1b[0;4;20h", "+IRM"),
    (b"\x1b[?4h", ""),
    (b"\x1b[4ha", "7:gh[BR]<2>[]i {63}j at 7 4 +IRM"),
    (b"\x1b[4h\x80", "7:gh[BR]<2>[]i {63}j at 7 4 +IRM"),
    (b"\x1b[4hab", "7:gh[BR]<2><3>[]i {63}j at 7 5 +IRM"),
    (
        b"\x1b[3;132H\x1b[4hab",
        "7:ghi {63}j {64}[BR]<3> at 7 132 +IRM",
    ),
    (b"\x1b[2;1H\x1b[4hc", "6(Double):[BR]<4>[]ff at 6 2 +IRM"),
    (
        b"\x1b[?6l\x1b[10;1H\x1b[4hc",
        "10(Top):[BR]<4>[]nn at 10 2 -DECOM +IRM",
    ),
    (
        b"\x1b[4h\x1b[?2l\x1bFa\x80",
        "7:gh[BR]<2><2>[]i {63}j at 7 5 +VT52 +IRM",
    ),
];

#[test]
fn from_a_wide_screen(rt: HostRuntime) -> Result<(), Fail> {
    all_change_as(&rt, Profile::Vt102, &[SET], LINES_OF_SET)?;
    all_change_as(&rt, Profile::Vt102, &[SET], CELLS_OF_SET)?;
    all_change_as(&rt, Profile::Vt102, &[SET], INSERT_MODE_OF_SET)
}

// The wrap is pending at column 40 of the double line 7, the bottom margin.
const EDITS_OF_WRAPPING: &[(&[u8], &str)] = &[
    (b"\x1b[L", "7: at 7 1"),
    (b"\x1b[M", "7: at 7 1"),
    (b"\x1b[6;2H\x1b[L", "6: 7:ff at 6 1"),
    (b"\x1b[6;2H\x1b[M", "6(Double):ghi {36}[UK]<25> 7: at 6 1"),
    (b"\x1b[P", "7(Double):ghi"),
    (b"\x1b[9P", "7(Double):ghi"),
    (b"\x1b[7;3H\x1b[P", "7(Double):gh {36}[UK]<25> at 7 3"),
    (b"\x1b[4h", "+IRM"),
    (
        b"\x1b[4hb",
        "5:ff 6(Double):ghi {36}[UK]<25> 7:[UK]<3> at 7 2 +IRM",
    ),
    (
        b"\x1b[4h\x80",
        "5:ff 6(Double):ghi {36}[UK]<25> 7:[UK]<2> at 7 2 +IRM",
    ),
    (b"\x1b[7;1H\x1b[4hb", "7(Double):[UK]<3>[]ghi at 7 2 +IRM"),
    (b"\x1b[7;40H\x1b[4hb", "7(Double):ghi {36}[UK]<3> +IRM"),
    (
        b"\x1b7\x1b[4h\x1b8",
        "+IRM saved(7 40 wrap [UK] G0 SpecialGraphics G1 Uk)",
    ),
    (
        b"\x1b[4h\x1bc\x1b[c\x1bZ",
        "5-10: at 1 1 no Margins no Tabs no Sets no Leds no Rendition no Saved sent E[?6cE[?6c",
    ),
];

#[test]
fn from_a_pending_wrap(rt: HostRuntime) -> Result<(), Fail> {
    all_change_as(&rt, Profile::Vt102, &[WRAPPING], EDITS_OF_WRAPPING)
}

// Of these a VT100 has none.
#[test]
fn changes_nothing_of_a_vt100(rt: HostRuntime) -> Result<(), Fail> {
    const ROWS: &[(&[u8], &str)] = &[
        (b"\x1b[L\x1b[0L\x1b[2L\x1b[9L", ""),
        (b"\x1b[M\x1b[0M\x1b[2M\x1b[9M", ""),
        (b"\x1b[P\x1b[0P\x1b[2P\x1b[9P", ""),
        (b"\x1b[4h", ""),
        (b"\x1b[4l", ""),
        (b"\x1b[0;4;5h", ""),
    ];
    all_change_as(&rt, Profile::Vt100, &[SET], ROWS)?;
    all_change_as(&rt, Profile::Vt100, &[WRAPPING], ROWS)
}

// In VT52 mode neither profile has them, but insert mode acts.
#[test]
fn in_vt52_mode(rt: HostRuntime) -> Result<(), Fail> {
    const START: &[&[u8]] = &[SET, b"\x1b[4h\x1b[?2l"];
    const ROWS: &[(&[u8], &str)] = &[
        (b"\x1bL\x1bM\x1bP\x1b[", ""),
        (b"a", "7:gh[BR]a[]i {63}j at 7 4"),
        (b"\x1bFab\x1bG", "7:gh[BR]<2><3>[]i {63}j at 7 5"),
        (b"\x1b<a", "7:gh[BR]<2>[]i {63}j at 7 4 -VT52"),
        (b"\x1bZ", "sent E[0nE/Z"),
    ];
    all_change_as(&rt, Profile::Vt102, START, ROWS)
}
