//! Bytes: what begins, goes on with and ends sequences, strings, titles and characters.

use crate::told::all_bytes_leave;
use std::process::Abort;
use std::test::Fail;

// Controls, CAN, SUB, ESC, DEL and bytes from 128 inside sequences; what has no effect by its form.
const SYNTAX: &[(&[u8], &str)] = &[
    (b"\x1b[2\nCx", "2:  x at 2 4 last x"),
    (b"\x1b[2\x00\x05\x07Cx", "1:  x at 1 4 last x"),
    (b"a\x1b[5\x18Cb", "1:aCb at 1 4 last b"),
    (b"a\x1b[5\x1aCb", "1:aCb at 1 4 last b"),
    (b"a\x1b\x18Cb", "1:aCb at 1 4 last b"),
    (b"a\x1b[5\x1b[Cb", "1:a b at 1 4 last b"),
    (b"a\x1b[1\x7fCb", "1:a b at 1 4 last b"),
    (b"a\x1b[\x80\xe6\x97\xa51\xffCb", "1:a b at 1 4 last b"),
    (b"a\x1b\xc3\xa9[Cb", "1:a b at 1 4 last b"),
    (b"a\x1b()0b", "1:ab at 1 3 last b"),
    (b"a\x1b##8b", "1:ab at 1 3 last b"),
    (b"a\x1b[ Cb", "1:ab at 1 3 last b"),
    (b"a\x1b[1:2Cb", "1:ab at 1 3 last b"),
    (b"a\x1b[>Cb", "1:ab at 1 3 last b"),
    (b"a\x1b[?Cb", "1:ab at 1 3 last b"),
    (b"a\x1b[1?25lb", "1:ab at 1 3 last b"),
    (b"\x1b[;;5Hx", "1:x at 1 2 last x"),
    (b"\x1b[99999Cx", "1: {11}x at 1 12 wrap last x"),
    (
        b"\x1b[0;0;0;0;0;0;0;0;0;0;0;0;0;0;0;1mx",
        "1:[B]x at 1 2 [B] last x",
    ),
    (
        b"\x1b[0;0;0;0;0;0;0;0;0;0;0;0;0;0;0;0;1mx",
        "1:x at 1 2 last x",
    ),
    (b"a\x1b<b\x1bNc\x1b\\d", "1:abcd at 1 5 last d"),
    (b"a\x07\x18\x1ab\x7fc", "1:abc at 1 4 last c"),
    (b"a\x1b[", "1:a at 1 2 last a pending"),
    (b"a\x1b(", "1:a at 1 2 last a pending"),
    (b"a\x1bP", "1:a at 1 2 last a pending"),
];

#[test]
fn sequences(rt: HostRuntime) -> Result<(), Fail> {
    all_bytes_leave(&rt, SYNTAX)
}

// Strings of every kind and titles, and what ends them.
const STRINGS: &[(&[u8], &str)] = &[
    (b"a\x1bPb\nc\x07d", "1:ad at 1 3 last d"),
    (b"a\x1bXb\x07c", "1:ac at 1 3 last c"),
    (b"a\x1b]b\x07c", "1:ac at 1 3 last c"),
    (b"a\x1b^b\x07c", "1:ac at 1 3 last c"),
    (b"a\x1b_b\x07c", "1:ac at 1 3 last c"),
    (b"a\x1b]b\x18c", "1:ac at 1 3 last c"),
    (b"a\x1bPb\x1ac", "1:ac at 1 3 last c"),
    (b"a\x1b]b\x1b\\c", "1:ac at 1 3 last c"),
    (b"a\x1b]b\x1b[Cc", "1:a c at 1 4 last c"),
    (b"a\x1b]\xe6\x97\xa5\x9c\x7f\x07c", "1:ac at 1 3 last c"),
    (b"a\x1b(]b\x07c", "1:abc at 1 4 last c"),
    (b"\x1bkb\xe6\x97\xa5\n\x7f\x07c", "1:c at 1 2 last c"),
    (b"\x1bkb\x18c", "1:c at 1 2 last c"),
    (b"\x1bkb\x1ac", "1:c at 1 2 last c"),
    (b"\x1bkb\x1b\\c", "1:c at 1 2 last c"),
    (b"\x1bkb\x1b[Cc", "1: c at 1 3 last c"),
    (b"\x1bkb", "at 1 1 title"),
    (b"\x1bk\x1bkb\x07c", "1:c at 1 2 last c"),
];

#[test]
fn strings_and_titles(rt: HostRuntime) -> Result<(), Fail> {
    all_bytes_leave(&rt, STRINGS)
}

// Each row of the table of UTF-8 at both ends and past them, and beginnings that are cut.
const UTF8: &[(&[u8], &str)] = &[
    (b"\xc2\xa0|\xdf\xbf|", "1:\u{a0}|߿| at 1 5 last |"),
    (b"\xc2\x80\xc2\x9b|", "1:| at 1 2 last |"),
    (b"\xe0\xa0\x80|\xe0\x9f\x80|", "1:ࠀ|���| at 1 7 last |"),
    (b"\xe1\x80\x80|\xec\xbf\xbf|", "1:က|쿿| at 1 6 last |"),
    (
        b"\xed\x9f\xbf|\xed\xa0\x80|",
        "1:\u{d7ff}|���| at 1 7 last |",
    ),
    (
        b"\xee\x80\x80|\xef\xbf\xbf|",
        "1:\u{e000}|\u{ffff}| at 1 5 last |",
    ),
    (
        b"\xf0\x90\x80\x80|\xf0\x8f\xbf\xbf|",
        "1:𐀀|����| at 1 8 last |",
    ),
    (
        b"\xf1\x80\x80\x80|\xf3\xbf\xbf\xbf|",
        "1:\u{40000}|\u{fffff}| at 1 5 last |",
    ),
    (
        b"\xf4\x8f\xbf\xbf|\xf4\x90\x80\x80|",
        "1:\u{10ffff}|����| at 1 8 last |",
    ),
    (
        b"\x80\xbf\xc0\xaf\xc1\xbf\xf5\xff|",
        "1:��������| at 1 10 last |",
    ),
    (b"\xc3|\xc3\xc3\xa9|", "1:�|�é| at 1 6 last |"),
    (b"\xe6\x97|\xe6\x97\xe6\x97\xa5|", "1:�|�日| at 1 7 last |"),
    (
        b"\xf0\x9f\x98|\xf0\x9f\xf0\x9f\x98\x80|",
        "1:�|�😀| at 1 7 last |",
    ),
    (
        b"\xc3\x1b[C|\xe6\x97\r\n|\xf0\x9f\x7f|",
        "1:� |� 2:|�| at 2 4 last |",
    ),
    (b"\xe6\x97\x18|\xe6\x07|", "1:�|�| at 1 5 last |"),
    (b"a\xe6\x97", "1:a at 1 2 last a pending"),
    (b"a\xf0\x9f\x98", "1:a at 1 2 last a pending"),
    (b"a\xf4", "1:a at 1 2 last a pending"),
    (b"\xc3\x1b]\xc3\x07\xa9", "1:�� at 1 3 last �"),
];

#[test]
fn utf8(rt: HostRuntime) -> Result<(), Fail> {
    all_bytes_leave(&rt, UTF8)
}
