//! The jobs `screen`, `reports` and `changes` of a VT102, the escaped print, and the job `transcript` of each terminal.
use super::{one_chunk, screen_text};
use crate::comparison::{compare, done};
use command_line::{Job, Measure, Player, Print};
use std::process::Abort;
use std::test::Fail;
use vt_term::Profile;

/// Four lines, and a region of the two in the middle.
const FOUR_LINES: &str = "a\r\nb\r\nc\r\nd\x1b[2;3r";

/// What a terminal is fed after the first text, and what a VT100 and a VT102 then show.
const EDITED: [(&str, &str, &str, &str); 6] = [
    (FOUR_LINES, "\x1b[2;1H\x1b[L", "a\nb\nc\nd\n", "a\n\nb\nd\n"),
    (FOUR_LINES, "\x1b[2;1H\x1b[5M", "a\nb\nc\nd\n", "a\n\n\nd\n"),
    (
        FOUR_LINES,
        "\x1b[1;2H\x1b[L",
        "a\nb\nc\nd\n",
        "a\nb\nc\nd\n",
    ),
    ("abcdef", "\x1b[1;2H\x1b[2P", "abcdef\n", "adef\n"),
    ("abc", "\x1b[1;2H\x1b[4hXY\x1b[4lZ", "aXYZ\n", "aXYZc\n"),
    ("ab", "\x1b#6\x1b[L", "ab\n", "\nab\n"),
];

#[test]
fn a_vt102_edits_lines_and_cells(rt: HostRuntime) -> Result<(), Fail> {
    for (first, then, vt100, vt102) in EDITED {
        let body = [first, then].concat(rt.alloc())?;
        compare_screen(&rt, Profile::Vt100, body.as_str(), vt100)?;
        compare_screen(&rt, Profile::Vt102, body.as_str(), vt102)?;
    }
    Ok(())
}

/// Feeds a terminal of this profile one chunk, and compares its screen.
fn compare_screen<R: Abort + AllocGlobal>(
    rt: &R,
    profile: Profile,
    body: &str,
    shown: &str,
) -> Result<(), Fail> {
    let text = screen_text(rt.alloc(), &[shown])?;
    compare_print(rt, profile, false, body, text.as_str())
}

/// Feeds a terminal of this profile one chunk, and compares its plain or escaped print.
fn compare_print<R: Abort + AllocGlobal>(
    rt: &R,
    profile: Profile,
    escaped: bool,
    body: &str,
    text: &str,
) -> Result<(), Fail> {
    let print = if escaped {
        Print::Escaped(Player::Vt(profile))
    } else {
        Print::Plain(Player::Vt(profile))
    };
    let screen = Job::Screen { at: 0, print };
    let timing = one_chunk(rt.alloc(), body)?;
    compare(rt, &done(screen, body, timing.as_str(), text))
}

/// What a request for the attributes of each profile is answered.
const ATTRIBUTES: [(Profile, &str); 2] = [
    (Profile::Vt100, "1b5b3f313b3263\n"),
    (Profile::Vt102, "1b5b3f3663\n"),
];

#[test]
fn profiles_answer_for_themselves(rt: HostRuntime) -> Result<(), Fail> {
    for (profile, line) in ATTRIBUTES {
        let player = Player::Vt(profile);
        let reports = Job::Reports { at: 0, player };
        compare(&rt, &done(reports, "\x1b[c", "0 3\n", line))?;
    }
    Ok(())
}

/// Which lines each profile changes where one is deleted in the second chunk.
const CHANGED: [(Profile, &str); 2] = [
    (Profile::Vt100, "0 0.000000 1 2\n"),
    (Profile::Vt102, "0 0.000000 1 2\n1 0.500000 1 2\n"),
];

#[test]
fn changes_of_a_vt102(rt: HostRuntime) -> Result<(), Fail> {
    for (profile, lines) in CHANGED {
        let changes = Job::Changes {
            from: None,
            to: 500_000,
            player: Player::Vt(profile),
        };
        let fed = "a\r\nb\x1b[H\x1b[M";
        compare(&rt, &done(changes, fed, "0 4\n0.5 6\n", lines))?;
    }
    Ok(())
}

/// From and to which moment, and what left then of three chunks, half a second apart, and what stands.
const STRETCHES: [(Option<u64>, Option<u64>, &str); 7] = [
    (None, None, "a\n b\n  c\n"),
    (Some(0), None, " b\n  c\n"),
    (Some(999_999), None, "  c\n"),
    (None, Some(500_000), "a\n b\n"),
    (Some(0), Some(500_000), " b\n"),
    (Some(500_000), Some(0), ""),
    (None, Some(0), "a\n"),
];

/// The display is erased at the end of the first two chunks.
#[test]
fn transcripts_of_stretches(rt: HostRuntime) -> Result<(), Fail> {
    for (from, to, text) in STRETCHES {
        let transcript = Job::Transcript {
            from,
            to,
            player: Player::Vt(Profile::Vt100),
        };
        let fed = "a\x1b[2Jb\x1b[2Jc";
        let timing = "0 5\n0.5 5\n0.5 1\n";
        compare(&rt, &done(transcript, fed, timing, text))?;
    }
    Ok(())
}

/// A terminal of today of 10 columns and 4 lines.
const TODAY: Player = Player::Today(Some(Measure {
    columns: 10,
    lines: 4,
}));

/// What each terminal is fed, and what it tells.
const TOLD: [(Player, &str, &str); 6] = [
    (Player::Vt(Profile::Vt100), "a\r\nb\x1b[H\x1b[Mc", "c\nb\n"),
    (Player::Vt(Profile::Vt102), "a\r\nb\x1b[H\x1b[Mc", "c\n"),
    (
        TODAY,
        "one\r\ntwo\r\n\r\nfour\r\nfive\r\nsix\r\n\r\n",
        "one\ntwo\n\nfour\nfive\nsix\n",
    ),
    // Of the alternate screen nothing leaves.
    (
        TODAY,
        "$ vi\r\n\x1b[?1049h1\r\n2\r\n3\r\n4\r\n5\x1b[2J\x1b[?1049l$ ",
        "$ vi\n$\n",
    ),
    (TODAY, "1\r\n2\r\n3\r\n4\x1b[2Sx", "1\n2\n3\n4\n\n x\n"),
    (TODAY, "abcdefghi日本\r\nab", "abcdefghi\n日本\nab\n"),
];

#[test]
fn transcripts_of_each_terminal(rt: HostRuntime) -> Result<(), Fail> {
    for (player, body, text) in TOLD {
        let transcript = Job::Transcript {
            from: None,
            to: None,
            player,
        };
        let timing = one_chunk(rt.alloc(), body)?;
        compare(&rt, &done(transcript, body, timing.as_str(), text))?;
    }
    Ok(())
}

/// What a terminal is fed, and the text that draws its screen again.
const DRAWN: [(&str, &str); 2] = [
    (
        "\x1b[1mA",
        "\x1b[?7l\x1b)0\x1b[1;1H\x1b[0;1mA\x1b[0m\x0f\x1b[?7h\x1b[1;2H",
    ),
    (
        "\x1b[5;10r\x1b[?6h\x1b[?5h\x1b[2;3HB",
        "\x1b[?5h\x1b[?7l\x1b)0\x1b[6;1H  B\x1b[0m\x0f\x1b[?7h\x1b[6;4H",
    ),
];

#[test]
fn the_escaped_print_of_a_moment(rt: HostRuntime) -> Result<(), Fail> {
    for (body, text) in DRAWN {
        compare_print(&rt, Profile::Vt100, true, body, text)?;
        compare_print(&rt, Profile::Vt102, true, body, text)?;
    }
    Ok(())
}
