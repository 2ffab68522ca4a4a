//! Characters: how wide they are, where they are put, the marks that join them, and the one that REP repeats.

use crate::told::all_leave;
use characters::width;
use std::process::Abort;
use std::test::Fail;

// By the tables of Unicode 18; of general category Mc and U+00AD by this project's choice.
const WIDTHS: &[(char, u8)] = &[
    ('\u{61}', 1),
    ('\u{a0}', 1),
    ('\u{ad}', 1),
    ('\u{300}', 0),
    ('\u{34f}', 0),
    ('\u{600}', 1),
    ('\u{605}', 0),
    ('\u{70f}', 0),
    ('\u{890}', 0),
    ('\u{8e2}', 0),
    ('\u{903}', 1),
    ('\u{93e}', 1),
    ('\u{d4e}', 0),
    ('\u{e31}', 0),
    ('\u{1100}', 2),
    ('\u{115f}', 2),
    ('\u{1160}', 0),
    ('\u{11ff}', 0),
    ('\u{17a4}', 2),
    ('\u{17d8}', 2),
    ('\u{200b}', 0),
    ('\u{200d}', 0),
    ('\u{20dd}', 0),
    ('\u{231a}', 2),
    ('\u{2500}', 1),
    ('\u{2630}', 2),
    ('\u{2d7f}', 1),
    ('\u{3000}', 2),
    ('\u{303f}', 1),
    ('\u{4dc0}', 2),
    ('\u{4e00}', 2),
    ('\u{a8fa}', 0),
    ('\u{ac00}', 2),
    ('\u{d7b0}', 0),
    ('\u{e000}', 1),
    ('\u{fdd0}', 1),
    ('\u{fe0f}', 0),
    ('\u{feff}', 0),
    ('\u{ff21}', 2),
    ('\u{ff71}', 1),
    ('\u{ff9e}', 1),
    ('\u{ffa0}', 0),
    ('\u{fffd}', 1),
    ('\u{1f1e9}', 1),
    ('\u{1f600}', 2),
    ('\u{20000}', 2),
    ('\u{3fffd}', 2),
    ('\u{e0100}', 0),
    ('\u{10ffff}', 1),
];

#[test]
fn widths(rt: HostRuntime) {
    for (character, want) in WIDTHS {
        let code = *character as u32;
        assert_eq!(rt; width(*character), *want, "at U+{code:04X}");
    }
}

// Characters of width 2 at the last column, marks, insert mode, halves, sets.
const PUTS: &[(&str, &str)] = &[
    ("日本", "1:日本 at 1 5 last 本"),
    (
        "a日\u{301}\u{323}\u{331}b",
        "1:a日\u{301}\u{323}b at 1 5 last b",
    ),
    ("\u{301}", "at 1 1"),
    ("\n\u{301}", "at 2 1"),
    ("  \u{301}x", "1:  \u{301}x at 1 4 last x"),
    (
        "123456789012\u{301}\u{323}\u{331}",
        "1:123456789012\u{301}\u{323} at 1 12 wrap last 2",
    ),
    (
        "123456789012\u{301}x",
        "1:123456789012\u{301} 2:x at 2 2 last x",
    ),
    (
        "1234567890日\u{301}",
        "1:1234567890日\u{301} at 1 12 wrap last 日",
    ),
    ("12345678901日", "1:12345678901 2:日 at 2 3 last 日"),
    ("12345678901\x1b[?7l日", "1:12345678901 at 1 12 no DECAWM"),
    (
        "12345678901x\x1b[?7l日y",
        "1:12345678901y at 1 12 no DECAWM last y",
    ),
    ("\x1b[?7l12345678901日", "1:12345678901 at 1 12 no DECAWM"),
    (
        "\x1b[?7l12345678901日\x1b[2b",
        "1:12345678901 at 1 12 no DECAWM",
    ),
    (
        "\x1b[?7l123456789012345",
        "1:123456789015 at 1 12 no DECAWM last 5",
    ),
    ("日\x1b[Dx", "1: x at 1 3 last x"),
    ("日\x1b[2G\u{301}", "1:日\u{301} at 1 2"),
    ("日本\x1b[1;2H語", "1: 語 at 1 4 last 語"),
    ("日本\x1b[1;4Hxy", "1:日 xy at 1 6 last y"),
    ("ab\x1b[H\x1b[4h日", "1:日ab at 1 3 IRM last 日"),
    (
        "123456789012\x1b[1;11H\x1b[4h日",
        "1:1234567890日 at 1 12 wrap IRM last 日",
    ),
    (
        "123456789012\x1b[1;1H\x1b[4h日",
        "1:日1234567890 at 1 3 IRM last 日",
    ),
    (
        "12345678901日\x1b[1;1H\x1b[4hx",
        "1:x12345678901 2:日 at 1 2 IRM last x",
    ),
    ("日日日日日日\x1b[1;1H\x1b[4hx", "1:x日日日日日 at 1 2 IRM last x"),
    ("日本\x1b[1;2H\x1b[4hx", "1: x 本 at 1 3 IRM last x"),
    (
        "\x1b[4h123456789012x",
        "1:123456789012 2:x at 2 2 IRM last x",
    ),
    ("\x1b[31;44m日\x1b[m\x1b[1;2Hx", "1: x at 1 3 last x"),
    ("\x1b[31;44m日\x1b[m\u{301}", "1:[i1g4]日\u{301} at 1 3"),
    ("\u{ad}x", "1:\u{ad}x at 1 3 last x"),
    ("ःx", "1:ःx at 1 3 last x"),
    ("\u{85}x\u{9b}", "1:x at 1 2"),
    ("\x1b(0`日\x0e`", "1:◆日` at 1 5 G0 SpecialGraphics SO last `"),
    ("\x1b(A#$", "1:£$ at 1 3 G0 Uk last $"),
    (
        "\x1b)0a\x0ea日\x0fa",
        "1:a▒日a at 1 6 G1 SpecialGraphics last a",
    ),
    ("\x1b(0_x", "1: │ at 1 3 G0 SpecialGraphics last │"),
];

#[test]
fn puts(rt: HostRuntime) -> Result<(), Fail> {
    all_leave(&rt, PUTS)
}

// REP directly behind its character, and what comes between.
const REPEATED: &[(&str, &str)] = &[
    ("a\x1b[b", "1:aa at 1 3"),
    ("a\x1b[3b", "1:aaaa at 1 5"),
    ("日\x1b[2b", "1:日日日 at 1 7"),
    ("a\u{301}\x1b[2b", "1:a\u{301}aa at 1 4"),
    ("a\x1b[2b\x1b[b", "1:aaa at 1 4"),
    ("\x1b[3b", "at 1 1"),
    ("a\n\x1b[b", "1:a at 2 2"),
    ("a\x00\x1b[b", "1:a at 1 2"),
    ("a\x07\x1b[b", "1:a at 1 2"),
    ("a\x18\x1b[b", "1:a at 1 2"),
    ("a\u{85}\x1b[b", "1:a at 1 2"),
    ("a\x7f\x1b[b", "1:aa at 1 3"),
    ("a\x1b[\x1b[b", "1:aa at 1 3"),
    ("a\x1b(\x1b[b", "1:aa at 1 3"),
    ("a\x1b]x\x1b[b", "1:aa at 1 3"),
    ("a\x1b]x\n\x1b[b", "1:aa at 1 3"),
    ("a\x1b]x\x07\x1b[b", "1:a at 1 2"),
    ("a\x1b]x\x18\x1b[b", "1:a at 1 2"),
    ("a\x1b]x\x1b\\\x1b[b", "1:a at 1 2"),
    ("a\x1b[m\x1b[b", "1:a at 1 2"),
    ("a\x1b[ q\x1b[b", "1:a at 1 2"),
    ("a\x1b##8\x1b[b", "1:a at 1 2"),
    ("a\x1bN\x1b[b", "1:a at 1 2"),
    ("a\x1b[2\x00b", "1:a at 1 2"),
    ("a\x1b[2\x18\x1b[b", "1:a at 1 2"),
    ("a\x1b[2\x7fb", "1:aaa at 1 4"),
    ("\x1b(0a\x1b[2b", "1:▒▒▒ at 1 4 G0 SpecialGraphics"),
    ("\x1b(0a\x1b(B\x1b[b", "1:▒ at 1 2"),
    ("日\x1b[6b", "1:日日日日日日 2:日 at 2 3"),
    (
        "a\x1b[99b",
        "1:a{12} 2:a{12} 3:a{12} 4:a{12} 5:a{12} 6:aaaa at 6 5",
    ),
    ("1234567890\x1b[4h\r日\x1b[2b", "1:日日日123456 at 1 7 IRM"),
    ("\x1b[1ma\x1b[0b", "1:[B]aa at 1 3 [B]"),
];

#[test]
fn repeated(rt: HostRuntime) -> Result<(), Fail> {
    all_leave(&rt, REPEATED)
}
