//! The jobs `screen`, `changes` and `reports` of a terminal of today.
use crate::comparison::{compare, done};
use command_line::{Job, Measure, Player, Print};
use std::test::Fail;

/// A terminal of today of a size.
const fn sized(columns: u64, lines: u64) -> Player {
    Player::Today(Some(Measure { columns, lines }))
}

/// Columns, lines, a chunk, and what is shown then.
const SHOWN: [(u64, u64, &str, &str); 7] = [
    (6, 2, "日本\r\nab  ", "日本\nab\n"),
    (4, 1, "日本語", "語\n"),
    (3, 2, "日本", "日\n本\n"),
    (5, 1, "e\u{301}x\x1b[41m  ", "e\u{301}x\n"),
    (5, 1, "\x1b[8mab", "ab\n"),
    (5, 1, "ab\x1b[1;2H日", "a日\n"),
    (5, 2, "ab\x1b[?1049hcd\x1b[?1049l", "ab\n\n"),
];

#[test]
fn a_terminal_of_today_is_printed(rt: HostRuntime) -> Result<(), Fail> {
    for (columns, lines, body, text) in SHOWN {
        let screen = Job::Screen {
            at: 0,
            print: Print::Plain(sized(columns, lines)),
        };
        let timing = format!(in rt.alloc(); "0 {}\n", body.len())?;
        compare(&rt, &done(screen, body, timing.as_str(), text))?;
    }
    Ok(())
}

/// Columns, lines, a chunk, and the text that draws it again.
const DRAWN_AGAIN: [(u64, u64, &str, &str); 3] = [
    (5, 2, "", "\x1b[0m\x1b[1;1H"),
    (
        6,
        2,
        "\x1b[1;31ma日\x1b[m\r\nb",
        "\x1b[1;1H\x1b[0;1;31ma日\x1b[2;1H\x1b[0mb\x1b[0m\x1b[2;2H",
    ),
    (
        4,
        1,
        "\x1b[?5h\x1b[?25l\x1b[48;5;200me\u{301}",
        "\x1b[?5h\x1b[1;1H\x1b[0m\x1b[48;5;200me\u{301}\x1b[0m\x1b[?25l\x1b[1;2H",
    ),
];

#[test]
fn a_terminal_of_today_is_drawn_again(rt: HostRuntime) -> Result<(), Fail> {
    for (columns, lines, body, text) in DRAWN_AGAIN {
        let screen = Job::Screen {
            at: 0,
            print: Print::Escaped(sized(columns, lines)),
        };
        let timing = format!(in rt.alloc(); "0 {}\n", body.len())?;
        compare(&rt, &done(screen, body, timing.as_str(), text))?;
    }
    Ok(())
}

#[test]
fn a_terminal_of_today_answers(rt: HostRuntime) -> Result<(), Fail> {
    let reports = Job::Reports {
        at: 0,
        player: sized(10, 3),
    };
    let body = "\x1b[3;9H日\x1b[6n\x1b[c";
    compare(
        &rt,
        &done(reports, body, "0 16\n", "1b5b333b3130521b5b3f313b3263\n"),
    )
}

/// Two chunks, at 0 and 0.5 s, on 4 columns and 3 lines, how many bytes the second one has, and the change lines.
const CHANGED: [(&str, u64, &str); 6] = [
    ("ab\r\ncd\x1b[Hab", 4, "0 0.000000 1 2\n"),
    // A rendition alone, also of blank cells.
    (
        "ab\r\ncd\x1b[H\x1b[1ma",
        8,
        "0 0.000000 1 2\n1 0.500000 1\n",
    ),
    ("\x1b[K\x1b[44m\x1b[K", 8, "1 0.500000 1\n"),
    // A mark alone.
    ("abcdefg\u{301}", 2, "0 0.000000 1 2\n1 0.500000 2\n"),
    // The cursor alone, and one screen in place of another.
    ("ab\r\ncd\r\n\x1b[H", 3, "0 0.000000 1 2\n"),
    (
        "ab\r\ncd\r\n\x1b[?47h",
        6,
        "0 0.000000 1 2\n1 0.500000 1 2\n",
    ),
];

#[test]
fn changes_of_a_terminal_of_today(rt: HostRuntime) -> Result<(), Fail> {
    let changes = Job::Changes {
        from: None,
        to: 500_000,
        player: sized(4, 3),
    };
    for (body, second, text) in CHANGED {
        let first = body.len().saturating_sub(second as usize);
        let timing = format!(in rt.alloc(); "0 {first}\n0.5 {second}\n")?;
        compare(&rt, &done(changes, body, timing.as_str(), text))?;
    }
    Ok(())
}
