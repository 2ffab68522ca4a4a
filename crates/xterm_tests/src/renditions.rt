//! Renditions: SGR from left to right, and cells that are erased and come in on the current ground.

use crate::told::all_leave;
use std::process::Abort;
use std::test::Fail;

const SELECTED: &[(&str, &str)] = &[
    ("\x1b[1;2;3;4;5;7;8;9m", "at 1 1 [BFIUKRCX]"),
    ("\x1b[21m", "at 1 1 [U]"),
    ("\x1b[6m", "at 1 1 [K]"),
    ("\x1b[1;2;22m", "at 1 1"),
    ("\x1b[3;23m", "at 1 1"),
    ("\x1b[4;24;21;24m", "at 1 1"),
    ("\x1b[5;25;6;25m", "at 1 1"),
    ("\x1b[7;27m", "at 1 1"),
    ("\x1b[8;28m", "at 1 1"),
    ("\x1b[9;29m", "at 1 1"),
    ("\x1b[31;42m", "at 1 1 [i1g2]"),
    ("\x1b[37;47;39m", "at 1 1 [g7]"),
    ("\x1b[37;47;49m", "at 1 1 [i7]"),
    ("\x1b[91;102m", "at 1 1 [i9g10]"),
    ("\x1b[97;107;0m", "at 1 1"),
    ("\x1b[38;5;0;48;5;255m", "at 1 1 [i0g255]"),
    ("\x1b[38;2;1;2;3;48;2;255;0;9m", "at 1 1 [i1.2.3g255.0.9]"),
    ("\x1b[38;5;256;1m", "at 1 1 [B]"),
    ("\x1b[48;2;256;0;0;1m", "at 1 1 [B]"),
    ("\x1b[48;2;0;256;0;1m", "at 1 1 [B]"),
    ("\x1b[48;2;0;0;256;1m", "at 1 1 [B]"),
    ("\x1b[38;5;1;38;2;1;2m", "at 1 1 [i1]"),
    ("\x1b[38;5;1;38;2m", "at 1 1 [i1]"),
    ("\x1b[38;5;1;38;5m", "at 1 1 [i1]"),
    ("\x1b[38;5;1;38m", "at 1 1 [i1]"),
    ("\x1b[38;7;1m", "at 1 1 [B]"),
    ("\x1b[48;0;1m", "at 1 1 [B]"),
    ("\x1b[38;38;5;1m", "at 1 1 [BK]"),
    ("\x1b[58;5;31;1m", "at 1 1 [B]"),
    ("\x1b[58;2;31;32;33;1m", "at 1 1 [B]"),
    ("\x1b[58;31;1m", "at 1 1 [B]"),
    ("\x1b[58m", "at 1 1"),
    ("\x1b[38;;1m", "at 1 1 [B]"),
    ("\x1b[38;5;;1m", "at 1 1 [Bi0]"),
    ("\x1b[48;2;;;;1m", "at 1 1 [Bg0.0.0]"),
    ("\x1b[;1m", "at 1 1 [B]"),
    ("\x1b[1;;3m", "at 1 1 [I]"),
    ("\x1b[1;0;3m", "at 1 1 [I]"),
    (
        "\x1b[10;11;19;20;26;50;59;60;89;98;99;108;255;1m",
        "at 1 1 [B]",
    ),
    (
        "\x1b[38;5;1;2;3;4;5;7;8;9;31;32;33;34;35;48;5m",
        "at 1 1 [FIUKRCXi5]",
    ),
    ("\x1b[0;0;0;0;0;0;0;0;0;0;0;0;38;5;7;1;3m", "at 1 1 [Bi7]"),
];

#[test]
fn selected(rt: HostRuntime) -> Result<(), Fail> {
    all_leave(&rt, SELECTED)
}

// A blank cell has the current ground, and nothing else of the rendition.
const GROUNDS: &[(&str, &str)] = &[
    ("abc\x1b[1;7;31;44m\x1b[K", "1:abc[g4] {9} at 1 4 [BRi1g4]"),
    (
        "abc\x1b[1;7;31;44m\r\x1b[K\x1b[m\x1b[Cx",
        "1:[g4] []x[g4] {10} at 1 3 last x",
    ),
    (
        "a\x1b[1;7;31;44m\x1b[2J",
        "1:[g4] {12} 2:[g4] {12} 3:[g4] {12} 4:[g4] {12} 5:[g4] {12} 6:[g4] {12} at 1 2 [BRi1g4]",
    ),
    (
        "\x1b[1;7;31;44m\x1b[@a\x1b[H\x1b[2@",
        "1:[g4]  [BRi1g4]a at 1 1 [BRi1g4]",
    ),
    (
        "\x1b[1;7;31;44mab\r\x1b[P",
        "1:[BRi1g4]b[] {10}[g4]  at 1 1 [BRi1g4]",
    ),
    (
        "\x1b[1;7;31;44m\x1b[2;3r\x1b[2H\x1b[L",
        "2:[g4] {12} at 2 1 margins 2 3 [BRi1g4]",
    ),
    ("\x1b[1;7;31;44m\x1b[S", "6:[g4] {12} at 1 1 [BRi1g4]"),
    ("\x1b[1;7;31;44m\x1b[6;1H\n", "6:[g4] {12} at 6 1 [BRi1g4]"),
    ("\x1b[1;7;31;44m\x1bM", "1:[g4] {12} at 1 1 [BRi1g4]"),
    (
        "\x1b[1;7;31;44m\x1b#8",
        "1:E{12} 2:E{12} 3:E{12} 4:E{12} 5:E{12} 6:E{12} at 1 1 [BRi1g4]",
    ),
    ("\x1b[1;7;31;44m日\x1b[D\x1b[X", "1:[g4]   at 1 2 [BRi1g4]"),
    ("\x1b[1;7;31;44m日\x1b[m\x1b[D\x1b[X", "at 1 2"),
    (
        "\x1b[1;7;31;44m日\x1b[2G\x1b[45mx",
        "1:[g5] [BRi1g5]x at 1 3 [BRi1g5] last x",
    ),
    (
        "\x1b[1;7;31;44m\x1b[?47h",
        "1:[g4] {12} 2:[g4] {12} 3:[g4] {12} 4:[g4] {12} 5:[g4] {12} 6:[g4] {12} alternate at 1 1 [BRi1g4]",
    ),
    (
        "\x1b[1;7;31;44m\x1b[?1049h\x1b[?1049l",
        "at 1 1 [BRi1g4] main saved(1 1 [BRi1g4])",
    ),
    ("\x1b[1;7;31;44m\x1bc", "at 1 1"),
    ("\x1b[48;2;1;2;3m\x1b[K", "1:[g1.2.3] {12} at 1 1 [g1.2.3]"),
    ("\x1b[49;31m\x1b[K", "at 1 1 [i1]"),
];

#[test]
fn grounds(rt: HostRuntime) -> Result<(), Fail> {
    all_leave(&rt, GROUNDS)
}
