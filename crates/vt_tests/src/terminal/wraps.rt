//! What clears the pending wrap and what leaves it, also where nothing moves.
use super::{feed_reset_as, write_cursor};
use std::alloc::Global;
use std::process::Abort;
use std::test::Fail;
use vt_term::Profile;

// The cursor and the wrap, as they are told.
fn cursor_after(alloc: Global, profile: Profile, pieces: &[&[u8]]) -> Result<String, Fail> {
    let left = feed_reset_as(alloc, profile, pieces)?;
    let mut text = String::new(alloc);
    write_cursor(&mut text, left.terminal.screen())?;
    Ok(text)
}

fn assert_leaves_cursor(
    rt: &(impl Abort + AllocGlobal),
    profile: Profile,
    start: &[u8],
    bytes: &[u8],
    want: &str,
) -> Result<(), Fail> {
    let text = cursor_after(rt.alloc(), profile, &[start, bytes])?;
    assert_eq!(rt;
        text.as_str(),
        want,
        "at {} of a {profile:?}",
        bytes.escape_ascii()
    );
    Ok(())
}

// Each begins with the wrap pending, as is told first, and leaves the cursor and the wrap as told, in both profiles.
fn all_leave_cursor(
    rt: &(impl Abort + AllocGlobal),
    start: (&[u8], &str),
    rows: &[(&[u8], &str)],
) -> Result<(), Fail> {
    assert_leaves_cursor(rt, Profile::Vt100, start.0, b"", start.1)?;
    for (bytes, want) in rows {
        assert_leaves_cursor(rt, Profile::Vt100, start.0, bytes, want)?;
        assert_leaves_cursor(rt, Profile::Vt102, start.0, bytes, want)?;
    }
    Ok(())
}

// Pending at line 5.
const PENDING: (&[u8], &str) = (b"\x1b[5;80HA", "at 5 80 wrap");

// Pending at line 5 with a double width.
const DOUBLE: (&[u8], &str) = (b"\x1b[5;1H\x1b#6\x1b[5;40HA", "at 5 40 wrap");

// Pending at line 5 with the halves of a double height.
const TOP: (&[u8], &str) = (b"\x1b[5;1H\x1b#3\x1b[5;40HA", "at 5 40 wrap");

const BOTTOM: (&[u8], &str) = (b"\x1b[5;1H\x1b#4\x1b[5;40HA", "at 5 40 wrap");

// Pending at the top margin, with DECOM set.
const AT_TOP: (&[u8], &str) = (b"\x1b[5;9r\x1b[?6h\x1b[1;80HA", "at 5 80 wrap");

// Pending at the bottom margin.
const AT_BOTTOM: (&[u8], &str) = (b"\x1b[5;9r\x1b[9;80HA", "at 9 80 wrap");

// Pending at line 1, above the margins.
const ABOVE: (&[u8], &str) = (b"\x1b[5;9r\x1b[1;80HA", "at 1 80 wrap");

// Pending at line 24, below the margins.
const BELOW: (&[u8], &str) = (b"\x1b[5;9r\x1b[24;80HA", "at 24 80 wrap");

// Pending in VT52 mode, with its graphics on.
const VT52: (&[u8], &str) = (b"\x1b[5;80HA\x1b[?2l\x1bF", "at 5 80 wrap");

#[test]
fn controls_clear_it(rt: HostRuntime) -> Result<(), Fail> {
    const ROWS: &[(&[u8], &str)] = &[
        (b"\x08", "at 5 79"),
        (b"\x09", "at 5 80"),
        (b"\x0a", "at 6 80"),
        (b"\x0b", "at 6 80"),
        (b"\x0c", "at 6 80"),
        (b"\x0d", "at 5 1"),
        (b"\x1b[\x08", "at 5 79"),
        (b"\x1b(\x09", "at 5 80"),
        (b"\x1b[20h\x0a", "at 6 1"),
    ];
    all_leave_cursor(&rt, PENDING, ROWS)?;
    all_leave_cursor(&rt, VT52, &ROWS[..6])
}

#[test]
fn moves_clear_it(rt: HostRuntime) -> Result<(), Fail> {
    const ROWS: &[(&[u8], &str)] = &[
        (b"\x1bD", "at 6 80"),
        (b"\x1bE", "at 6 1"),
        (b"\x1bM", "at 4 80"),
        (b"\x1b[A", "at 4 80"),
        (b"\x1b[B", "at 6 80"),
        (b"\x1b[C", "at 5 80"),
        (b"\x1b[9C", "at 5 80"),
        (b"\x1b[D", "at 5 79"),
        (b"\x1b[5;80H", "at 5 80"),
        (b"\x1b[5;80f", "at 5 80"),
        (b"\x1b[5;999H", "at 5 80"),
        (b"\x1b[H", "at 1 1"),
        (b"\x1b[f", "at 1 1"),
    ];
    all_leave_cursor(&rt, PENDING, ROWS)
}

#[test]
fn moves_that_move_nothing_clear_it(rt: HostRuntime) -> Result<(), Fail> {
    const UP: &[(&[u8], &str)] = &[(b"\x1b[A", "at 5 80"), (b"\x1bM", "at 5 80")];
    all_leave_cursor(&rt, AT_TOP, UP)?;
    const DOWN: &[(&[u8], &str)] = &[
        (b"\x1b[B", "at 9 80"),
        (b"\x1bD", "at 9 80"),
        (b"\x0a", "at 9 80"),
        (b"\x0b", "at 9 80"),
        (b"\x0c", "at 9 80"),
    ];
    all_leave_cursor(&rt, AT_BOTTOM, DOWN)?;
    const UP_ABOVE: &[(&[u8], &str)] = &[(b"\x1b[A", "at 1 80"), (b"\x1bM", "at 1 80")];
    all_leave_cursor(&rt, ABOVE, UP_ABOVE)?;
    const DOWN_BELOW: &[(&[u8], &str)] = &[
        (b"\x1b[B", "at 24 80"),
        (b"\x1bD", "at 24 80"),
        (b"\x0a", "at 24 80"),
        (b"\x0b", "at 24 80"),
        (b"\x0c", "at 24 80"),
    ];
    all_leave_cursor(&rt, BELOW, DOWN_BELOW)
}

#[test]
fn vt52_moves_clear_it(rt: HostRuntime) -> Result<(), Fail> {
    const ROWS: &[(&[u8], &str)] = &[
        (b"\x1bA", "at 4 80"),
        (b"\x1bB", "at 6 80"),
        (b"\x1bC", "at 5 80"),
        (b"\x1bD", "at 5 79"),
        (b"\x1bH", "at 1 1"),
        (b"\x1bI", "at 4 80"),
        (b"\x1bY$o", "at 5 80"),
        (b"\x1bY  ", "at 1 1"),
    ];
    all_leave_cursor(&rt, VT52, ROWS)
}

#[test]
fn settings_clear_it(rt: HostRuntime) -> Result<(), Fail> {
    const ROWS: &[(&[u8], &str)] = &[
        (b"\x1b[2;9r", "at 1 1"),
        (b"\x1b[r", "at 1 1"),
        (b"\x1b[?6h", "at 1 1"),
        (b"\x1b[?6l", "at 1 1"),
        (b"\x1b[?7l", "at 5 80"),
        (b"\x1b[?3h", "at 1 1"),
        (b"\x1b[?3l", "at 1 1"),
        (b"\x1b#3", "at 5 40"),
        (b"\x1b#4", "at 5 40"),
        (b"\x1b#5", "at 5 80"),
        (b"\x1b#6", "at 5 40"),
        (b"\x1b#8", "at 5 80"),
        (b"\x1bc", "at 1 1"),
        (b"\x1b8", "at 1 1"),
        (b"\x1b[?2l\x1b<\x1b[?7l", "at 5 80"),
    ];
    all_leave_cursor(&rt, PENDING, ROWS)
}

#[test]
fn on_a_double_line(rt: HostRuntime) -> Result<(), Fail> {
    const ROWS: &[(&[u8], &str)] = &[
        (b"\x09", "at 5 40"),
        (b"\x1b[C", "at 5 40"),
        (b"\x1b[5;80H", "at 5 40"),
        (b"\x1b#3", "at 5 40"),
        (b"\x1b#4", "at 5 40"),
        (b"\x1b#5", "at 5 40"),
        (b"\x1b#6", "at 5 40"),
        (b"\x1b#8", "at 5 40"),
        (b"\x1b[A", "at 4 40"),
        (b"\x1b[1J", "at 5 40"),
        (b"\x1b[2J", "at 5 40"),
        (b"\x1b[0J", "at 5 40 wrap"),
        (b"\x1b[3J", "at 5 40 wrap"),
        (b"\x1b[K", "at 5 40 wrap"),
        (b"\x1b[1K", "at 5 40 wrap"),
        (b"\x1b[2K", "at 5 40 wrap"),
        (b"\x1b[?2l\x1bJ", "at 5 40 wrap"),
        (b"\x1b[?2l\x1bK", "at 5 40 wrap"),
        (b"\x1b[m", "at 5 40 wrap"),
    ];
    all_leave_cursor(&rt, DOUBLE, ROWS)
}

// The two halves of a double height are double sizes too.
#[test]
fn erasing_a_double_height_clears_it(rt: HostRuntime) -> Result<(), Fail> {
    const ROWS: &[(&[u8], &str)] = &[
        (b"\x1b[1J", "at 5 40"),
        (b"\x1b[2J", "at 5 40"),
        (b"\x1b[J", "at 5 40 wrap"),
    ];
    all_leave_cursor(&rt, TOP, ROWS)?;
    all_leave_cursor(&rt, BOTTOM, ROWS)
}

#[test]
fn restoring_sets_it(rt: HostRuntime) -> Result<(), Fail> {
    const ROWS: &[(&[u8], &str)] = &[
        // What is saved comes back as it was saved ..
        (b"\x1b7\x1b[5;80H\x1b8", "at 5 80 wrap"),
        (b"\x1b7\x1b[9;9H\x1b8", "at 5 80 wrap"),
        (b"\x1b[5;80H\x1b7\x1b[9;80HA\x1b8", "at 5 80"),
        // .. but only with DECAWM set, and where the column is the right margin.
        (b"\x1b7\x1b[?7l\x1b8", "at 5 80"),
        (b"\x1b7\x1b[?3h\x1b8", "at 5 80"),
        (b"\x1b7\x1b#6\x1b8", "at 5 40 wrap"),
    ];
    all_leave_cursor(&rt, PENDING, ROWS)
}

#[test]
fn erasing_a_single_line_leaves_it(rt: HostRuntime) -> Result<(), Fail> {
    const ROWS: &[(&[u8], &str)] = &[
        (b"\x1b[J", "at 5 80 wrap"),
        (b"\x1b[1J", "at 5 80 wrap"),
        (b"\x1b[2J", "at 5 80 wrap"),
        (b"\x1b[3J", "at 5 80 wrap"),
        (b"\x1b[K", "at 5 80 wrap"),
        (b"\x1b[1K", "at 5 80 wrap"),
        (b"\x1b[2K", "at 5 80 wrap"),
        (b"\x1b[3K", "at 5 80 wrap"),
    ];
    all_leave_cursor(&rt, PENDING, ROWS)
}

#[test]
fn settings_that_leave_it(rt: HostRuntime) -> Result<(), Fail> {
    const ROWS: &[(&[u8], &str)] = &[
        (b"\x1b[m", "at 5 80 wrap"),
        (b"\x1b[1;4;5;7m", "at 5 80 wrap"),
        (b"\x1bH", "at 5 80 wrap"),
        (b"\x1b[g", "at 5 80 wrap"),
        (b"\x1b[3g", "at 5 80 wrap"),
        (b"\x1b[1g", "at 5 80 wrap"),
        (b"\x1b[?7h", "at 5 80 wrap"),
        (b"\x1b[9;2r", "at 5 80 wrap"),
        (b"\x1b[5;5r", "at 5 80 wrap"),
        (b"\x1b[1;25r", "at 5 80 wrap"),
        (b"\x1b[?2h", "at 5 80 wrap"),
        (b"\x1b[?2l", "at 5 80 wrap"),
        (b"\x1b[20h\x1b[20l", "at 5 80 wrap"),
        (b"\x1b[?1;4;5;8;9h", "at 5 80 wrap"),
        (b"\x1b[?1;4;5;8;9l", "at 5 80 wrap"),
        (b"\x1b[1;2;3;4q\x1b[q", "at 5 80 wrap"),
        (b"\x1b=\x1b>", "at 5 80 wrap"),
        (b"\x1b(A\x1b)0", "at 5 80 wrap"),
        (b"\x0e\x0f", "at 5 80 wrap"),
        (b"\x1b7", "at 5 80 wrap"),
    ];
    all_leave_cursor(&rt, PENDING, ROWS)
}

#[test]
fn questions_and_what_has_no_effect_leave_it(rt: HostRuntime) -> Result<(), Fail> {
    const ROWS: &[(&[u8], &str)] = &[
        (b"\x1bZ", "at 5 80 wrap"),
        (b"\x1b[c", "at 5 80 wrap"),
        (b"\x1b[5n\x1b[6n", "at 5 80 wrap"),
        (b"\x1b[x\x1b[1x", "at 5 80 wrap"),
        (b"\x00\x01\x05\x06\x07\x10\x11\x13\x1f", "at 5 80 wrap"),
        (b"\x18\x1a\x7f", "at 5 80 wrap"),
        (b"\x1b", "at 5 80 wrap"),
        (b"\x1b[5;", "at 5 80 wrap"),
        (b"\x1b\x1b[\x1b(", "at 5 80 wrap"),
        (b"\x1b]0;title\x0a\x07", "at 5 80 wrap"),
        (b"\x1b[?25h\x1b[?1049l", "at 5 80 wrap"),
        (b"\x1b[4:3m\x1b[>c\x1b[1 q", "at 5 80 wrap"),
        (b"\x1bN\x1b#7\x1b(C\x1b<", "at 5 80 wrap"),
    ];
    all_leave_cursor(&rt, PENDING, ROWS)
}

#[test]
fn what_leaves_it_in_vt52_mode(rt: HostRuntime) -> Result<(), Fail> {
    const ROWS: &[(&[u8], &str)] = &[
        (b"\x1bF\x1bG", "at 5 80 wrap"),
        (b"\x1bZ", "at 5 80 wrap"),
        (b"\x1b=\x1b>", "at 5 80 wrap"),
        (b"\x1b<", "at 5 80 wrap"),
        (b"\x1bJ", "at 5 80 wrap"),
        (b"\x1bK", "at 5 80 wrap"),
        (b"\x0e\x0f", "at 5 80 wrap"),
        (b"\x00\x05\x07\x11\x18\x1a\x7f", "at 5 80 wrap"),
        (b"\x1bE\x1bM\x1bc\x1b7\x1b8\x1b[", "at 5 80 wrap"),
        (b"\x1bY", "at 5 80 wrap"),
        (b"\x1bY$", "at 5 80 wrap"),
    ];
    all_leave_cursor(&rt, VT52, ROWS)
}

// A character takes it, and at the right margin it is pending again where DECAWM is set.
#[test]
fn characters_take_it(rt: HostRuntime) -> Result<(), Fail> {
    const ROWS: &[(&[u8], &str)] = &[
        (b"B", "at 6 2"),
        (b"\xc3", "at 6 2"),
        (b"\x1b[\x18", "at 6 2"),
        (b"B\x1b[79CB", "at 6 80 wrap"),
        (b"\x1b[?7lBB", "at 5 80"),
    ];
    all_leave_cursor(&rt, PENDING, ROWS)?;
    const ROWS_BELOW: &[(&[u8], &str)] = &[(b"B", "at 24 2")];
    all_leave_cursor(&rt, BELOW, ROWS_BELOW)
}
