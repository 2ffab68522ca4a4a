//! The state text of `screen`: played on another terminal it makes that one what the first one was.
use crate::in_memory::{DONE, HEADER, do_job};
use command_line::{Job, Measure, Player, Print};
use std::process::Abort;
use std::test::Fail;
use vt_term::Profile;

const VT100: Player = Player::Vt(Profile::Vt100);

/// A terminal of today of 80 columns and 24 lines.
const TODAY: Player = Player::Today(Some(Measure {
    columns: 80,
    lines: 24,
}));

/// Eighty characters, which fill a line.
const A80: &[u8] =
    b"AAAAAAAAAAAAAAAAAAAAAAAAAAAAAAAAAAAAAAAAAAAAAAAAAAAAAAAAAAAAAAAAAAAAAAAAAAAAAAAA";

/// What a terminal is made by, what another one has played before, what it then plays behind the text, and what it shows
/// (without the empty lines at the end).
type Row<'a> = (Player, &'a [u8], &'a [u8], &'a [u8], &'a str);

const ROWS: &[Row<'static>] = &[
    (VT100, b"ab", b"", b"c", "abc"),
    // The wrap is pending.
    (
        VT100,
        A80,
        b"\x1b[5;5Hx\x1b[?3h",
        b"B",
        "AAAAAAAAAAAAAAAAAAAAAAAAAAAAAAAAAAAAAAAAAAAAAAAAAAAAAAAAAAAAAAAAAAAAAAAAAAAAAAAA\nB",
    ),
    (
        TODAY,
        A80,
        b"\x1b[?7l\x1b[5;5Hx",
        b"B",
        "AAAAAAAAAAAAAAAAAAAAAAAAAAAAAAAAAAAAAAAAAAAAAAAAAAAAAAAAAAAAAAAAAAAAAAAAAAAAAAAA\nB",
    ),
    // A stop past column 80.
    (
        VT100,
        b"\x1b[3g\x1b[?3h\x1b[1;90H\x1bH\x1b[?3l",
        b"\x1b[3g",
        b"\x1b[?3h\tx",
        "                                                                                         x",
    ),
    // VT52 mode, on either side, and its graphics.
    (VT100, b"ab", b"\x1b[?2l\x1bF\x1bY", b"c", "abc"),
    (VT100, b"\x1b[?2l\x1bF", b"\x1b[7m", b"a\x1b<a", "\u{2592}a"),
    // A sequence that isn't finished.
    (VT100, b"a\x1b[3;1", b"\x1b]0;ti", b"0Hx", "a\n\n         x"),
    (TODAY, b"a\x1b[3;1", b"\x1b]0;ti", b"0Hx", "a\n\n         x"),
    (
        VT100,
        b"\x1b[?2l\x1bY%",
        b"\x1b[",
        b"*X",
        "\n\n\n\n\n          X",
    ),
    // A character that isn't.
    (TODAY, b"a\xe6\x97", b"\xf0\x9f", b"\xa5", "a\u{65e5}"),
    // A set that isn't invoked.
    (VT100, b"\x1b(0\x0e", b"", b"\x0fq", "\u{2500}"),
    (TODAY, b"\x1b(0\x0e", b"", b"\x0fq", "\u{2500}"),
    // What the other sheet saved.
    (
        TODAY,
        b"ab\x1b[3;5H\x1b7\x1b[?47h\x1b[H\x1b7cd",
        b"\x1b7",
        b"\x1b[?47l\x1b8e",
        "ab\n\n    e",
    ),
];

/// A job on a recording of one chunk, which comes at once: what it writes.
fn text_of<R: Abort + AllocGlobal>(rt: &R, job: Job, bytes: &[u8]) -> Result<Vec<u8>, Fail> {
    let script = [HEADER, bytes].concat(rt.alloc())?;
    let timing = format!(in rt.alloc(); "0 {}\n", bytes.len())?;
    let ended = do_job(rt.alloc(), job, script.as_slice(), timing.as_bytes(), b"");
    assert_eq!(rt; ended.outcome, DONE);
    Ok(ended.text)
}

/// The state text of the terminal that bytes make.
fn state_of<R: Abort + AllocGlobal>(rt: &R, player: Player, bytes: &[u8]) -> Result<Vec<u8>, Fail> {
    let print = Print::State(player);
    text_of(rt, Job::Screen { at: 0, print }, bytes)
}

/// Sees that a row's text makes the other terminal the first one.
fn makes<R: Abort + AllocGlobal>(rt: &R, row: &Row<'_>) -> Result<(), Fail> {
    let (player, made, before, more, shown) = *row;
    let state = state_of(rt, player, made)?;
    let bytes = [before, state.as_slice(), more].concat(rt.alloc())?;
    let print = Print::Plain(player);
    let screen = text_of(rt, Job::Screen { at: 0, print }, bytes.as_slice())?;
    let text = str::from_utf8(screen.as_slice()).unwrap_or("");
    assert_eq!(rt; text.trim_end_matches('\n'), shown, "{made:?}");
    Ok(())
}

#[test]
fn a_state_text_makes_any_terminal_this_one(rt: HostRuntime) -> Result<(), Fail> {
    for row in ROWS {
        makes(&rt, row)?;
    }
    Ok(())
}

/// Sees that the terminal that a row's text makes has the same text, and has sent nothing.
fn gives_itself<R: Abort + AllocGlobal>(rt: &R, row: &Row<'_>) -> Result<(), Fail> {
    let (player, made, before, _, _) = *row;
    let state = state_of(rt, player, made)?;
    let bytes = [before, state.as_slice()].concat(rt.alloc())?;
    let again = state_of(rt, player, bytes.as_slice())?;
    assert_eq!(rt; again.as_slice(), state.as_slice(), "{made:?}");
    let sent = text_of(rt, Job::Reports { at: 0, player }, bytes.as_slice())?;
    assert_eq!(rt; sent.as_slice(), b"\n".as_slice(), "{made:?}");
    Ok(())
}

/// It is a function of what is seen, so the terminal that it makes has the same; and it asks for no report.
#[test]
fn a_state_text_gives_itself_and_asks_nothing(rt: HostRuntime) -> Result<(), Fail> {
    for row in ROWS {
        gives_itself(&rt, row)?;
    }
    Ok(())
}
