//! Two sheets, and what is saved of each.

use crate::told::all_leave;
use std::process::Abort;
use std::test::Fail;

const SHEETS: &[(&str, &str)] = &[
    ("a\x1b[?47hb", "1: b alternate at 1 3 last b"),
    ("a\x1b[?47hb\x1b[?47l", "1:a at 1 3"),
    ("a\x1b[?47hb\x1b[?47l\x1b[?47h", "alternate at 1 3"),
    ("a\x1b[?47hb\x1b[?47hc", "1: bc alternate at 1 4 last c"),
    ("a\x1b[?1047hb\x1b[?1047hc", "1: bc alternate at 1 4 last c"),
    (
        "a\x1b[?1049hb\x1b[?1049hc",
        "1: bc alternate at 1 4 last c main saved(1 2)",
    ),
    ("a\x1b[?47l\x1b[?1047lb", "1:ab at 1 3 last b"),
    ("a\x1b[?1049l", "1:a at 1 1"),
    (
        "ab\x1b[?1049h\x1b[3;3Hc\x1b[?1049l",
        "1:ab at 1 3 main saved(1 3)",
    ),
    (
        "ab\x1b7\x1b[?47h\x1b[3;3H\x1b7\x1b[?47l\x1b8",
        "1:ab at 1 3 main saved(1 3) alternate saved(3 3)",
    ),
    ("ab\x1b7\x1b[?47h\x1b8", "alternate at 1 1 main saved(1 3)"),
    (
        "ab\x1b7\x1b[?47h\x1b[?1049h",
        "alternate at 1 3 main saved(1 3)",
    ),
    ("\x1b[?1048h\x1b[3;3H\x1b[?1048l", "at 1 1 main saved(1 1)"),
    (
        "a\x1b[?47h\x1b[?1048hb\x1b[?1048l",
        "1: b alternate at 1 2 alternate saved(1 2)",
    ),
    (
        "a\x1b[?47h\x1b[2;3r\x1b[4h\x1b[1m\x1b[?47l",
        "1:a at 1 1 margins 2 3 IRM [B]",
    ),
    ("a\x1b[?47hb\x1bc", "at 1 1"),
    ("a\x1b[?1047h\x1b[3;3Hb\x1b[?47l\x1b[?1047l", "1:a at 3 4"),
    ("a\x1b[?1049hb\x1b[?47l\x1b8", "1:a at 1 2 main saved(1 2)"),
    ("a\x1b[?47hb\x1b[?1049l", "1:a at 1 1"),
    ("a\x1b[?47;1049hb\x1b[?1049;47lc", "1:c at 1 2 last c"),
    (
        "\x1b[1;7m\x1b[2;3r\x1b[?6h\x1b)0\x0ea\x1b7\x1bc\x1b8",
        "at 1 1",
    ),
    (
        "\x1b[2;3r\x1b[?6h\x1b7\x1b[?6l\x1b[r\x1b[3;4r\x1b8",
        "at 3 1 margins 3 4 DECOM main saved(2 1 DECOM)",
    ),
    (
        "\x1b[?6h\x1b[6;3H\x1b7\x1b[?6l\x1b[2;3r\x1b8",
        "at 3 3 margins 2 3 DECOM main saved(6 3 DECOM)",
    ),
    (
        "\x1b[6;3H\x1b7\x1b[2;3r\x1b[?6h\x1b8",
        "at 6 3 margins 2 3 main saved(6 3)",
    ),
    (
        "123456789012\x1b7\x1b[?7l\x1b8",
        "1:123456789012 at 1 12 no DECAWM main saved(1 12 wrap)",
    ),
    (
        "123456789012\x1b7\x1b[?7l\x1b[?7h\x1b8\x1b8",
        "1:123456789012 at 1 12 wrap main saved(1 12 wrap)",
    ),
    (
        "123456789012\x1b[s\x1b[H\x1b[u",
        "1:123456789012 at 1 12 wrap main saved(1 12 wrap)",
    ),
    ("\x1b[1;9s\x1b[3;3H\x1b[2u", "at 1 1 main saved(1 1)"),
];

#[test]
fn sheets(rt: HostRuntime) -> Result<(), Fail> {
    all_leave(&rt, SHEETS)
}
