//! The jobs `cut` and `excerpt` over texts in memory: rows by hand, of the new pair, and of what a terminal shows of it.
use crate::in_memory::{DONE, Ended, HEADER, do_job};
use command_line::{Job, Player, Print};
use std::alloc::Global;
use std::fmt::Write;
use std::process::Abort;
use std::test::Fail;
use vt_term::Profile;

const VT100: Player = Player::Vt(Profile::Vt100);

const TODAY: Player = Player::Today(None);

/// Chunks: how long each comes after the one before it, in seconds, and its text.
type Chunks<'a> = &'a [(&'a str, &'a str)];

/// A script and its timing.
#[derive(Drop)]
struct Pair {
    script: Vec<u8>,
    timing: Vec<u8>,
}

/// The pair of these chunks, behind which a trailer stands.
fn pair_of(alloc: Global, chunks: Chunks<'_>) -> Result<Pair, Fail> {
    let mut script = Vec::new(alloc);
    let mut timing = String::new(alloc);
    script.extend_from_slice(HEADER)?;
    for (delay, text) in chunks {
        script.extend_from_slice(text.as_bytes())?;
        writeln!(timing, "{delay} {}", text.len())?;
    }
    script.extend_from_slice(TRAILER)?;
    Ok(Pair {
        script,
        timing: timing.into_bytes(),
    })
}

/// What stands behind the last chunk.
const TRAILER: &[u8] = b"\nScript done on Y\n";

/// Does a job on a pair.
fn do_on(alloc: Global, job: Job, pair: &Pair) -> Ended {
    do_job(
        alloc,
        job,
        pair.script.as_slice(),
        pair.timing.as_slice(),
        b"",
    )
}

/// The pair that a job makes of one, between whose header and trailer something may have come and gone.
fn made_by<R: Abort + AllocGlobal>(rt: &R, job: Job, pair: &Pair) -> Pair {
    let ended = do_on(rt.alloc(), job, pair);
    assert_eq!(rt; ended.outcome, DONE, "{job:?}");
    assert!(rt; ended.text.as_slice().starts_with(HEADER), "{job:?}");
    assert!(rt; ended.text.as_slice().ends_with(TRAILER), "{job:?}");
    Pair {
        script: ended.text,
        timing: ended.new_timing,
    }
}

/// Sees which delays a timing has.
fn has_delays<R: Abort>(rt: &R, timing: &[u8], delays: &[&str]) {
    let text = str::from_utf8(timing).unwrap_or("");
    let mut lines = text.lines();
    for delay in delays {
        let line = lines.next().unwrap_or("");
        let (told, _) = line.split_once(" ").unwrap_or(("", ""));
        assert_eq!(rt; told, *delay, "{text}");
    }
    assert_eq!(rt; lines.next(), None, "{text}");
}

/// Sees what a pair shows at a moment, without the empty lines at the end.
fn shows<R: Abort + AllocGlobal>(rt: &R, player: Player, pair: &Pair, at: u64, shown: &str) {
    let print = Print::Plain(player);
    let screen = do_on(rt.alloc(), Job::Screen { at, print }, pair);
    let text = str::from_utf8(screen.text.as_slice()).unwrap_or("");
    assert_eq!(rt; text.trim_end_matches('\n'), shown, "at {at}");
}

/// A cut, the chunks, the delays that come of it, and what is shown at some moments.
type Row<'a> = (
    u64,
    u64,
    Player,
    Chunks<'a>,
    &'a [&'a str],
    &'a [(u64, &'a str)],
);

/// A screen is erased in what goes.
const ERASED: Chunks<'static> = &[("0", "ab"), ("1", "\x1b[2J"), ("1", "c")];

const CUTS: [Row<'static>; 5] = [
    (
        500_000,
        1_500_000,
        VT100,
        ERASED,
        &["0.000000", "0.500000", "0.500000"],
        &[
            (0, "ab"),
            (499_999, "ab"),
            (500_000, ""),
            (999_999, ""),
            (1_000_000, "  c"),
        ],
    ),
    // No chunk is due in it, so no text comes in.
    (
        1_000_000,
        1_900_000,
        VT100,
        ERASED,
        &["0.000000", "1.000000", "0.100000"],
        &[
            (999_999, "ab"),
            (1_000_000, ""),
            (1_099_999, ""),
            (1_100_000, "  c"),
        ],
    ),
    // A sequence of VT52 mode ends behind it.
    (
        500_000,
        1_000_000,
        VT100,
        &[("0", "\x1b[?2l"), ("1", "\x1bY%"), ("1", "*X")],
        &["0.000000", "0.500000", "1.000000"],
        &[(1_499_999, ""), (1_500_000, "\n\n\n\n\n          X")],
    ),
    // What is due at its beginning stays, and so does what is due behind its end.
    (
        1_000_000,
        2_000_000,
        TODAY,
        &[
            ("1", "a"),
            ("0.000001", "b"),
            ("0.999999", "c"),
            ("0.000001", "d"),
        ],
        &["1.000000", "0.000000", "0.000001"],
        &[(999_999, ""), (1_000_000, "abc"), (1_000_001, "abcd")],
    ),
    // All that is left is what is due at 0, and the text.
    (
        0,
        1_000_000_000_000_000_000,
        TODAY,
        &[("0", "a"), ("1", "b\r\nc")],
        &["0.000000", "0.000000"],
        &[(0, "ab\nc")],
    ),
];

#[test]
fn cuts_leave_the_rest_as_it_was(rt: HostRuntime) -> Result<(), Fail> {
    for (from, to, player, chunks, delays, moments) in CUTS {
        let pair = pair_of(rt.alloc(), chunks)?;
        let made = made_by(&rt, Job::Cut { from, to, player }, &pair);
        has_delays(&rt, made.timing.as_slice(), delays);
        for (at, shown) in moments {
            shows(&rt, player, &made, *at, shown);
        }
    }
    Ok(())
}

/// A screen as a text that draws it again.
fn drawn<R: AllocGlobal>(rt: &R, player: Player, pair: &Pair, at: u64) -> Vec<u8> {
    let print = Print::Escaped(player);
    do_on(rt.alloc(), Job::Screen { at, print }, pair).text
}

#[test]
fn a_cut_keeps_the_cursor(rt: HostRuntime) -> Result<(), Fail> {
    let cut = Job::Cut {
        from: 500_000,
        to: 1_500_000,
        player: VT100,
    };
    let made = made_by(&rt, cut, &pair_of(rt.alloc(), ERASED)?);
    let text = drawn(&rt, VT100, &made, 500_000);
    assert!(&rt; text.as_slice().ends_with(b"\x1b[1;3H"));
    Ok(())
}

/// A sequence begins before what goes, and ends in it: what is put then is red and underscored.
#[test]
fn a_cut_keeps_the_rendition(rt: HostRuntime) -> Result<(), Fail> {
    let cut = Job::Cut {
        from: 500_000,
        to: 1_000_000,
        player: TODAY,
    };
    let pair = pair_of(rt.alloc(), &[("0", "\x1b[31"), ("1", ";4m"), ("1", "X")])?;
    let made = made_by(&rt, cut, &pair);
    has_delays(
        &rt,
        made.timing.as_slice(),
        &["0.000000", "0.500000", "1.000000"],
    );
    let plain = pair_of(rt.alloc(), &[("0", "\x1b[31;4mX")])?;
    let wanted = drawn(&rt, TODAY, &plain, 0);
    let text = drawn(&rt, TODAY, &made, 1_500_000);
    assert_eq!(&rt; text.as_slice(), wanted.as_slice());
    Ok(())
}

/// A job that leaves all as it is, but for how the delays are written.
fn stays<R: Abort + AllocGlobal>(
    rt: &R,
    job: Job,
    chunks: Chunks<'_>,
    timing: &str,
) -> Result<(), Fail> {
    let pair = pair_of(rt.alloc(), chunks)?;
    let made = made_by(rt, job, &pair);
    assert_eq!(rt; made.script.as_slice(), pair.script.as_slice());
    assert_eq!(rt; made.timing.as_slice(), timing.as_bytes());
    Ok(())
}

/// Where the end isn't behind the beginning, the same recording is written.
#[test]
fn a_cut_of_nothing_changes_nothing(rt: HostRuntime) -> Result<(), Fail> {
    let timing = "0.000000 2\n1.000000 4\n1.000000 1\n";
    for (from, to) in [(1_000_000, 1_000_000), (1_500_000, 500_000), (0, 0)] {
        for player in [VT100, TODAY] {
            stays(&rt, Job::Cut { from, to, player }, ERASED, timing)?;
        }
    }
    Ok(())
}

/// No chunk goes, and the next one comes earlier, if there is one.
#[test]
fn a_cut_between_chunks_brings_no_text(rt: HostRuntime) -> Result<(), Fail> {
    let player = TODAY;
    let between = Job::Cut {
        from: 1_000_000,
        to: 1_900_000,
        player,
    };
    stays(&rt, between, ERASED, "0.000000 2\n1.000000 4\n0.100000 1\n")?;
    let behind = Job::Cut {
        from: 2_000_000,
        to: 9_000_000,
        player,
    };
    stays(&rt, behind, ERASED, "0.000000 2\n1.000000 4\n1.000000 1\n")
}

/// An excerpt, the delays that come of it, and what is shown at some moments.
type Kept<'a> = (u64, Option<u64>, &'a [&'a str], &'a [(u64, &'a str)]);

const EXCERPTS: [Kept<'static>; 6] = [
    (
        0,
        None,
        &["0.000000", "1.000000", "1.000000"],
        &[(0, "ab"), (1_000_000, ""), (2_000_000, "  c")],
    ),
    (
        500_000,
        None,
        &["0.000000", "0.500000", "1.000000"],
        &[
            (0, "ab"),
            (499_999, "ab"),
            (500_000, ""),
            (1_500_000, "  c"),
        ],
    ),
    (
        500_000,
        Some(1_999_999),
        &["0.000000", "0.500000"],
        &[(0, "ab"), (500_000, ""), (9_000_000, "")],
    ),
    // The first chunk of those due is kept by the moment at which it is due, and not at `from`.
    (
        1_000_000,
        Some(2_000_000),
        &["0.000000", "1.000000"],
        &[(0, ""), (999_999, ""), (1_000_000, "  c")],
    ),
    // Nothing is kept.
    (
        999_999,
        Some(999_999),
        &["0.000000"],
        &[(0, "ab"), (9_000_000, "ab")],
    ),
    (
        1_000_000,
        Some(0),
        &["0.000000"],
        &[(0, ""), (9_000_000, "")],
    ),
];

#[test]
fn excerpts_begin_as_the_screen_stood(rt: HostRuntime) -> Result<(), Fail> {
    for (from, to, delays, moments) in EXCERPTS {
        for player in [VT100, TODAY] {
            let pair = pair_of(rt.alloc(), ERASED)?;
            let made = made_by(&rt, Job::Excerpt { from, to, player }, &pair);
            has_delays(&rt, made.timing.as_slice(), delays);
            for (at, shown) in moments {
                shows(&rt, player, &made, *at, shown);
            }
        }
    }
    Ok(())
}

/// A character stands in the last of 132 columns, and the next one on the line below.
#[test]
fn an_excerpt_keeps_a_wide_screen(rt: HostRuntime) -> Result<(), Fail> {
    let line = "A".repeat(rt.alloc(), 80)?;
    let chunks: [(&str, &str); 4] = [
        ("0", line.as_str()),
        ("1", "\x1b[?3h"),
        ("1", "\x1b[1;132HB"),
        ("1", "C"),
    ];
    let excerpt = Job::Excerpt {
        from: 2_500_000,
        to: None,
        player: VT100,
    };
    let made = made_by(&rt, excerpt, &pair_of(rt.alloc(), &chunks)?);
    has_delays(&rt, made.timing.as_slice(), &["0.000000", "0.500000"]);
    let blank = " ".repeat(rt.alloc(), 131)?;
    let first = [blank.as_str(), "B"].concat(rt.alloc())?;
    let both = [blank.as_str(), "B\nC"].concat(rt.alloc())?;
    shows(&rt, VT100, &made, 0, first.as_str());
    shows(&rt, VT100, &made, 500_000, both.as_str());
    Ok(())
}

/// Chunks with much that a screen doesn't show: margins, stops, sets, a saved cursor, modes, and sequences that go on from
/// one chunk to the next.
const HIDDEN: Chunks<'static> = &[
    ("0", "\x1b[3;9r\x1b[?6h\x1b[2;5Hab\x1b7\x1b[1;4"),
    (
        "0.25",
        "m\x1b(0q\x1b[?1049h\x1b[4hxy\x1b[3g\x1b[1;9H\x1bH\x1b[",
    ),
    ("0.5", "?7l\x0ez\x1b]0;ti"),
    ("0.25", "tle\x07\x1b[?1049l\x1b8c\x1b["),
    ("0.5", "6n\t\u{e9}"),
    ("0.5", "d\r\n\n\n\n\n\n\n\n\x1bMe"),
];

/// All that the terminal is at a moment, as a text.
fn state_of<R: AllocGlobal>(rt: &R, player: Player, pair: &Pair, at: u64) -> Vec<u8> {
    let print = Print::State(player);
    do_on(rt.alloc(), Job::Screen { at, print }, pair).text
}

/// Sees that a new recording is at a moment what the old one is at another.
fn alike<R: Abort + AllocGlobal>(rt: &R, player: Player, new: (&Pair, u64), old: (&Pair, u64)) {
    let shown = state_of(rt, player, new.0, new.1);
    let wanted = state_of(rt, player, old.0, old.1);
    assert_eq!(rt;
        shown.as_slice(),
        wanted.as_slice(),
        "{player:?} {} {}",
        new.1,
        old.1
    );
}

/// A cut doesn't show: at each moment all is seen that was seen then, or so much later.
#[test]
fn nothing_is_seen_of_a_cut(rt: HostRuntime) -> Result<(), Fail> {
    let old = pair_of(rt.alloc(), HIDDEN)?;
    for (from, to) in [
        (0, 500_000),
        (100_000, 800_000),
        (250_000, 2_000_000),
        (749_999, 750_000),
    ] {
        for player in [VT100, TODAY] {
            let new = made_by(&rt, Job::Cut { from, to, player }, &old);
            for at in (0..2_500_000).step_by(125_000) {
                let gone = to.saturating_sub(from);
                let then = if at < from {
                    at
                } else {
                    at.saturating_add(gone)
                };
                alike(&rt, player, (&new, at), (&old, then));
            }
        }
    }
    Ok(())
}

/// Nor is anything seen of an excerpt.
#[test]
fn nothing_is_seen_of_an_excerpt(rt: HostRuntime) -> Result<(), Fail> {
    let old = pair_of(rt.alloc(), HIDDEN)?;
    for (from, to) in [
        (0, 500_000),
        (100_000, 800_000),
        (250_000, 2_000_000),
        (750_000, 250_000),
    ] {
        for player in [VT100, TODAY] {
            let excerpt = Job::Excerpt {
                from,
                to: Some(to),
                player,
            };
            let new = made_by(&rt, excerpt, &old);
            for at in (0..2_500_000).step_by(125_000) {
                let then = from.saturating_add(at).min(from.max(to));
                alike(&rt, player, (&new, at), (&old, then));
            }
        }
    }
    Ok(())
}

/// What the chunks that go asked is lacking, and so is what the text might ask.
#[test]
fn reports_are_those_of_the_chunks_that_stay(rt: HostRuntime) -> Result<(), Fail> {
    let chunks: Chunks<'_> = &[("0", "a\x1b[6n"), ("1", "b\x1b[6n"), ("1", "c\x1b[6n")];
    let pair = pair_of(rt.alloc(), chunks)?;
    for player in [VT100, TODAY] {
        let cut = Job::Cut {
            from: 0,
            to: 1_000_000,
            player,
        };
        let excerpt = Job::Excerpt {
            from: 1_000_000,
            to: None,
            player,
        };
        let rows: [(Job, &[u8]); 2] = [
            (cut, b"1b5b313b32521b5b313b3452\n"),
            (excerpt, b"1b5b313b3452\n"),
        ];
        for (job, sent) in rows {
            let made = made_by(&rt, job, &pair);
            let reports = do_on(
                rt.alloc(),
                Job::Reports {
                    at: 9_000_000,
                    player,
                },
                &made,
            );
            assert_eq!(&rt; reports.text.as_slice(), sent, "{job:?}");
        }
    }
    Ok(())
}
