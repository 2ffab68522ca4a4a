use crate::comparison::{compare, done};
use crate::in_memory::AB;
use command_line::{Job, Player, Print};
use std::alloc::{AllocError, Global};
use std::process::Abort;
use std::test::Fail;
use vt_term::Profile;

mod profiles;
mod today;

/// Half of a line's 80 columns.
const A40: &str = "AAAAAAAAAAAAAAAAAAAAAAAAAAAAAAAAAAAAAAAA";

/// The columns before the last one of such a half.
const A39: &str = "AAAAAAAAAAAAAAAAAAAAAAAAAAAAAAAAAAAAAAA";

const A38: &str = "AAAAAAAAAAAAAAAAAAAAAAAAAAAAAAAAAAAAAA";

const SPACES_40: &str = "                                        ";

const SPACES_39: &str = "                                       ";

/// Half of a line of the alignment pattern.
const E40: &str = "EEEEEEEEEEEEEEEEEEEEEEEEEEEEEEEEEEEEEEEE";

/// Twenty-two lines' ends.
const LINES_22: &str = "\n\n\n\n\n\n\n\n\n\n\n\n\n\n\n\n\n\n\n\n\n\n";

/// What a terminal is fed, then shows (without the empty lines at the end) and has sent (in hexadecimal), the first two
/// in parts.
type Row<'a> = (&'a [&'a str], &'a [&'a str], &'a str);

#[test]
fn sequences_and_strings(rt: HostRuntime) -> Result<(), Fail> {
    compare_all(
        &rt,
        &[
            (&[], &[], ""),
            (&["ab"], &["ab"], ""),
            (&["\x1b[31;4mX"], &["X"], ""),
            (&["\x1b[3\x18m"], &["\u{2592}m"], ""),
            (&["\x1b[38;5;1mX"], &["X"], ""),
            (&["\x1b]0;title\x07ok"], &["ok"], ""),
            (&["\u{e9}"], &["\u{2592}\u{2592}"], ""),
        ],
    )
}

#[test]
fn cursor_wrap_and_erasing(rt: HostRuntime) -> Result<(), Fail> {
    compare_all(
        &rt,
        &[
            (
                &[A40, A40, "\x1b[6n", "B"],
                &[A40, A40, "\nB"],
                "1b5b313b383052",
            ),
            (&[A40, A40, "\x08B"], &[A40, A38, "BA"], ""),
            (&["abc\x1b[2D\x1b[K"], &["a"], ""),
            (&["\x1b[24;1Hx\r\n"], &[LINES_22, "x"], ""),
            (&["\x1b[?7l", A40, A40, "B"], &[A40, A39, "B"], ""),
            (&[A40, A40, "\x1b[0mB"], &[A40, A40, "\nB"], ""),
            (
                &["\x1b[99;99Hx"],
                &[LINES_22, "\n", SPACES_40, SPACES_39, "x"],
                "",
            ),
        ],
    )
}

#[test]
fn margins_origin_and_tabs(rt: HostRuntime) -> Result<(), Fail> {
    compare_all(
        &rt,
        &[
            (
                &["\x1b[5;10r\x1b[?6h\x1b[99;1H\x1b[6n"],
                &[],
                "1b5b363b3152",
            ),
            (&["\x1b[3;3H\x1b[10;5r\x1b[6n"], &[], "1b5b333b3352"),
            (
                &["a\r\nb\r\nc\r\nd\x1b[2;3r\x1b[3;1H\n"],
                &["a\nc\n\nd"],
                "",
            ),
            (&["\x1b[3g\tx"], &[SPACES_40, SPACES_39, "x"], ""),
            (&["\x1b[1;5H\x1bH\r\tx"], &["    x"], ""),
            (&["\x1b[2;4r\x1b[?6h\x1b[9Ax"], &["\nx"], ""),
            (&["\x1b[2;3r\x1bMx"], &["x"], ""),
        ],
    )
}

#[test]
fn sizes_sets_and_saving(rt: HostRuntime) -> Result<(), Fail> {
    compare_all(
        &rt,
        &[
            (&[A40, "AAAAAAAAAA\x1b#6"], &[A40], ""),
            (&["ab\x1b#3\r\nab\x1b#4\x1b[1J"], &[], ""),
            (
                &["\x1b[?3h\x1b[1;132HAB"],
                &[SPACES_40, SPACES_40, SPACES_40, "           A\nB"],
                "",
            ),
            (&["\x1b(0lqk"], &["\u{250c}\u{2500}\u{2510}"], ""),
            (&["\x1b(A#"], &["\u{a3}"], ""),
            (&["\x1b[7m\x1b[5;5H\x1b8X"], &["X"], ""),
            (&[A40, A40, "\x1b7\x1b[5;1H\x1b8B"], &[A40, A40, "\nB"], ""),
        ],
    )
}

#[test]
fn replies_and_vt52(rt: HostRuntime) -> Result<(), Fail> {
    compare_all(
        &rt,
        &[
            (
                &["\x1b[?2l\x1bY%*X\x1bZ"],
                &["\n\n\n\n\n          X"],
                "1b2f5a",
            ),
            (
                &["\x1b[x\x1b[1x"],
                &[],
                "1b5b323b313b313b3131323b3131323b313b30781b5b333b313b313b3131323b3131323b313b3078",
            ),
            (&["\x1b[?2l\x1bFa\x1b<a"], &["\u{2592}a"], ""),
            (&["\x1b[?2;7l\x1bZ"], &[], "1b2f5a"),
            (&["\x1b[c"], &[], "1b5b3f313b3263"),
            (&["\x1b[5n\x1b[5n"], &[], "1b5b306e1b5b306e"),
        ],
    )
}

/// The alignment pattern fills the screen, whatever the cursor.
#[test]
fn the_alignment_pattern(rt: HostRuntime) -> Result<(), Fail> {
    let line = [E40, E40, "\n"].concat(rt.alloc())?;
    let text = line.as_str().repeat(rt.alloc(), 24)?;
    let fed = "\x1b[3;3H\x1b#8";
    compare(&rt, &done(screen(0), fed, "0 9\n", text.as_str()))
}

/// A body, a timing and a moment, and what is then shown and was sent.
type Moment<'a> = (&'a str, &'a str, u64, &'a str, &'a str);

/// Two requests for a report, the second one whole half a second later.
const TWO_REQUESTS: &str = "\x1b[5n\x1b[5n";

/// The last moment before half a second, and half a second.
const BEFORE: u64 = 499_999;

const HALF: u64 = 500_000;

const MOMENTS: [Moment<'static>; 7] = [
    ("", "", 7_000_000, "", ""),
    ("ab", AB, BEFORE, "a", ""),
    ("ab", AB, HALF, "ab", ""),
    ("\x1b[31;4mX", "0 3\n0.5 5\n", BEFORE, "", ""),
    ("\x1b[31;4mX", "0 3\n0.5 5\n", HALF, "X", ""),
    (TWO_REQUESTS, "0 7\n0.5 1\n", BEFORE, "", "1b5b306e"),
    (TWO_REQUESTS, "0 7\n0.5 1\n", HALF, "", "1b5b306e1b5b306e"),
];

/// What is due counts alone, and sequences go on over chunks.
#[test]
fn moments(rt: HostRuntime) -> Result<(), Fail> {
    for (body, timing, at, shown, sent) in &MOMENTS {
        shows(&rt, *at, body, timing, &[shown])?;
        sends(&rt, *at, body, timing, sent)?;
    }
    Ok(())
}

/// Far more replies than one piece of digits holds.
#[test]
fn many_replies(rt: HostRuntime) -> Result<(), Fail> {
    let body = "\x1b[5n".repeat(rt.alloc(), 25_000)?;
    let sent = "1b5b306e".repeat(rt.alloc(), 25_000)?;
    sends(&rt, 0, body.as_str(), "0 100000\n", sent.as_str())
}

/// Feeds each row's text as one chunk, and compares screen and replies.
fn compare_all<R: Abort + AllocGlobal>(rt: &R, rows: &[Row<'_>]) -> Result<(), Fail> {
    for (fed, shown, sent) in rows {
        compare_chunk(rt, fed, shown, sent)?;
    }
    Ok(())
}

/// Feeds a text in parts as one chunk, and compares screen and replies.
fn compare_chunk<R: Abort + AllocGlobal>(
    rt: &R,
    fed: &[&str],
    shown: &[&str],
    sent: &str,
) -> Result<(), Fail> {
    let body = fed.concat(rt.alloc())?;
    let timing = one_chunk(rt.alloc(), body.as_str())?;
    shows(rt, 0, body.as_str(), timing.as_str(), shown)?;
    sends(rt, 0, body.as_str(), timing.as_str(), sent)
}

/// The timing of one chunk that comes at once.
fn one_chunk(alloc: Global, body: &str) -> Result<String, AllocError> {
    format!(in alloc; "0 {}\n", body.len())
}

/// The job that tells what a VT100 shows at a moment.
fn screen(at: u64) -> Job {
    Job::Screen {
        at,
        print: Print::Plain(Player::Vt(Profile::Vt100)),
    }
}

/// Sees what a VT100 shows at a moment.
fn shows<R: Abort + AllocGlobal>(
    rt: &R,
    at: u64,
    body: &str,
    timing: &str,
    shown: &[&str],
) -> Result<(), Fail> {
    let text = screen_text(rt.alloc(), shown)?;
    compare(rt, &done(screen(at), body, timing, text.as_str()))
}

/// Sees what a VT100 has sent by a moment.
fn sends<R: Abort + AllocGlobal>(
    rt: &R,
    at: u64,
    body: &str,
    timing: &str,
    sent: &str,
) -> Result<(), Fail> {
    let reports = Job::Reports {
        at,
        player: Player::Vt(Profile::Vt100),
    };
    let line = [sent, "\n"].concat(rt.alloc())?;
    compare(rt, &done(reports, body, timing, line.as_str()))
}

/// The 24 lines of a screen from its parts, without the empty lines at the end.
fn screen_text(alloc: Global, shown: &[&str]) -> Result<String, AllocError> {
    let mut text = shown.concat(alloc)?;
    let ends = text
        .as_str()
        .as_bytes()
        .iter()
        .filter(|byte| **byte == b'\n')
        .count();
    for _ in ends..24 {
        text.push_str("\n")?;
    }
    Ok(text)
}
