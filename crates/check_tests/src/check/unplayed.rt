//! The unplayed sequences of a check.

use crate::check::{PLAIN, STARTED, compare, recorded};
use std::alloc::Global;
use std::process::Abort;
use std::rt::Runtime;
use std::test::Fail;
use vt_term::Profile;

/// Compares the lines of the unplayed sequences of chunks, which are divided by bars.
fn compare_unplayed(
    rt: &(impl Runtime<A = Global> + Abort),
    chunks: &[u8],
    profile: Profile,
    unplayed: &str,
) -> Result<(), Fail> {
    let recording = recorded(rt, PLAIN, chunks, b"")?;
    let lines = format!(in rt.alloc(); "{}{unplayed}", STARTED)?;
    compare(rt, &recording, profile, lines.as_str());
    Ok(())
}

/// Sequences of each form, in another order than that of their bytes.
const FORMS: &[u8] =
    b"\x1bN\x1b[Q\x1b(X\x1b[1 q\x1b[?1049h\x1b[5Q\x1b#(8\x1b[6;10h\x1b[>c\x1bO\x1b%G\x1b[?J\x1b#7\x1b<";

/// Their lines.
const FORM_LINES: &str = "unplayed 1 ESC # 7
unplayed 1 ESC % G
unplayed 1 ESC ( X
unplayed 1 ESC .. 8
unplayed 1 ESC <
unplayed 1 ESC N
unplayed 1 ESC O
unplayed 1 ESC [ .. c
unplayed 1 ESC [ .. q
unplayed 1 ESC [ 10 h
unplayed 1 ESC [ 6 h
unplayed 1 ESC [ ? 1049 h
unplayed 1 ESC [ ? J
unplayed 2 ESC [ Q
";

#[test]
fn are_counted_in_byte_order(rt: HostRuntime) -> Result<(), Fail> {
    compare_unplayed(&rt, FORMS, Profile::Vt100, FORM_LINES)?;
    compare_unplayed(&rt, FORMS, Profile::Vt102, FORM_LINES)
}

/// Switches of modes, and the modes that have no row.
const MODES: [(&[u8], &str); 6] = [
    // Each by itself; those that change no cell are passed over.
    (
        b"\x1b[?1049;7;12;25;1000;1006;1007;1015;1034;2004;1049h\x1b[?47l",
        "unplayed 1 ESC [ ? 1007 h\nunplayed 2 ESC [ ? 1049 h\nunplayed 1 ESC [ ? 47 l\n",
    ),
    // They are private modes; LNM has a row.
    (
        b"\x1b[12;20;25h",
        "unplayed 1 ESC [ 12 h\nunplayed 1 ESC [ 25 h\n",
    ),
    // A missing parameter is 0.
    (
        b"\x1b[h\x1b[?1;l",
        "unplayed 1 ESC [ 0 h\nunplayed 1 ESC [ ? 0 l\n",
    ),
    // At most 9,999, whatever zeros stand before it.
    (b"\x1b[?123456;0007h", "unplayed 1 ESC [ ? 9999 h\n"),
    // Sixteen parameters count.
    (
        b"\x1b[20;20;20;20;20;20;20;20;20;20;20;20;20;20;20;3;5h",
        "unplayed 1 ESC [ 3 h\n",
    ),
    (b"\x1b[?1;2;3;4;5;6;7;8;9h\x1b[?1;3;4;5;6;7;8;9l", ""),
];

#[test]
fn count_each_mode_by_itself(rt: HostRuntime) -> Result<(), Fail> {
    for (chunks, unplayed) in &MODES {
        compare_unplayed(&rt, chunks, Profile::Vt100, unplayed)?;
        compare_unplayed(&rt, chunks, Profile::Vt102, unplayed)?;
    }
    Ok(())
}

/// What a VT102 has more.
#[test]
fn are_those_of_the_profile(rt: HostRuntime) -> Result<(), Fail> {
    let chunks = b"\x1b[4h\x1b[2L\x1b[M\x1b[3P\x1b[L\x1b[4l\x1b[@";
    let unplayed =
        "unplayed 1 ESC [ 4 h\nunplayed 1 ESC [ 4 l\nunplayed 1 ESC [ @\nunplayed 2 ESC [ L\nunplayed 1 ESC [ M\nunplayed 1 ESC [ P\n";
    compare_unplayed(&rt, chunks, Profile::Vt100, unplayed)?;
    compare_unplayed(&rt, chunks, Profile::Vt102, "unplayed 1 ESC [ @\n")
}

/// Rows, also with values that do nothing, and strings with whatever ends them.
const PLAYED: [&[u8]; 5] = [
    b"\x1bD\x1bE\x1bM\x1bH\x1bZ\x1b7\x1b8\x1b=\x1b>\x1bc\x1b#3\x1b#4\x1b#5\x1b#6\x1b#8",
    b"\x1b(A\x1b(B\x1b(0\x1b(1\x1b(2\x1b)A\x1b)B\x1b)0\x1b)1\x1b)2",
    b"\x1b[A\x1b[B\x1b[C\x1b[D\x1b[H\x1b[f\x1b[J\x1b[K\x1b[r\x1b[g\x1b[m\x1b[q\x1b[c\x1b[n\x1b[x",
    b"\x1b[5J\x1b[9K\x1b[9;1r\x1b[2g\x1b[38;5;99m\x1b[9q\x1b[9c\x1b[7n\x1b[2x\x1b[?2h",
    b"\x1b]0;[G\x07\x1bP1$r\x1b\\\x1bXN\x18\x1b^N\x1a\x1b_N\x1b\\",
];

#[test]
fn are_no_rows_and_no_strings(rt: HostRuntime) -> Result<(), Fail> {
    for chunks in PLAYED {
        compare_unplayed(&rt, chunks, Profile::Vt100, "")?;
        compare_unplayed(&rt, chunks, Profile::Vt102, "")?;
    }
    Ok(())
}

/// VT52 mode begins with the byte that ends its sequence, whose further parameters count, and ends with `ESC <`.
#[test]
fn are_other_ones_in_vt52_mode(rt: HostRuntime) -> Result<(), Fail> {
    let chunks =
        b"\x1bI\x1b[?2;99l\x1bA\x1bY!N\x1bI\x1b=\x1b\\\x1bE\x1b[Q\x1bc\x1b(0\x1bE\x1b<\x1bE\x1bI";
    let unplayed =
        "unplayed 1 ESC (\nunplayed 2 ESC E\nunplayed 2 ESC I\nunplayed 1 ESC [\nunplayed 1 ESC [ ? 99 l\nunplayed 1 ESC c\n";
    compare_unplayed(&rt, chunks, Profile::Vt100, unplayed)?;
    compare_unplayed(&rt, chunks, Profile::Vt102, unplayed)
}

/// They run on over the ends of chunks, and controls and DEL in them change nothing.
#[test]
fn run_on_into_the_next_chunk(rt: HostRuntime) -> Result<(), Fail> {
    let chunks = b"\x1b[|Q\x1b|N\x1b[?10|\r4\x7f9||h";
    let unplayed = "unplayed 1 ESC N\nunplayed 1 ESC [ ? 1049 h\nunplayed 1 ESC [ Q\n";
    compare_unplayed(&rt, chunks, Profile::Vt100, unplayed)
}

/// Cut by the end of the chunks, by CAN and SUB, and by the next ESC.
#[test]
fn are_finished(rt: HostRuntime) -> Result<(), Fail> {
    compare_unplayed(
        &rt,
        b"\x1b[\x18Q\x1b\x1aN\x1b[5\x1b[\x1b7\x1b[",
        Profile::Vt100,
        "",
    )?;
    let recording = recorded(&rt, PLAIN, b"\x1b[", b"G")?;
    let lines = "started X\nnote trailer: 1 bytes behind the last chunk are never shown\n";
    compare(&rt, &recording, Profile::Vt100, lines);
    Ok(())
}
