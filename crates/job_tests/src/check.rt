//! The job `check`, and the note that other jobs tell of a recording.
use crate::in_memory::{AB, DONE, do_job};
use command_line::{Job, Measure, Player, Print};
use std::io;
use std::process::Abort;
use std::test::Fail;
use tape_core::{Fault, Watched};
use tape_jobs::{JobFault, Outcome, run_with};
use vt_term::Profile;

/// A check that has noted something.
const NOTED: Outcome = Outcome {
    status: 1,
    fault: None,
};

/// A script over the timing of two chunks of a byte each, how its check ends, and its lines.
const CHECKED: [(&[u8], Outcome, &str); 4] = [
    (b"Script started on X\nab", DONE, "started X\n"),
    (
        b"Script started on X [TERM=\"vt100\" COLUMNS=\"80\" LINES=\"24\"]\nab\nScript done on Y\n",
        DONE,
        "started X\nterm vt100\nsize 80x24\n",
    ),
    (
        b"Script started on X [TERM=\"xterm\"]\nab",
        NOTED,
        "started X\nterm xterm\nnote term: recorded under xterm, played as vt100\ntry --profile xterm\n",
    ),
    (b"Script started on X\n\x1b=", DONE, "started X\n"),
];

/// Does the job, and compares what came out.
fn compare_checked<R: Abort + AllocGlobal>(rt: &R, script: &[u8], outcome: Outcome, lines: &str) {
    let job = Job::Check {
        player: Player::Vt(Profile::Vt100),
    };
    let ended = do_job(rt.alloc(), job, script, AB.as_bytes(), b"");
    assert_eq!(rt;
        (ended.outcome, ended.text.as_slice(), ended.note.len()),
        (outcome, lines.as_bytes(), 0),
        "{script:?}"
    );
}

#[test]
fn check_tells_what_is_noted(rt: HostRuntime) {
    for (script, outcome, lines) in &CHECKED {
        compare_checked(&rt, script, *outcome, lines);
    }
}

#[test]
fn check_of_a_terminal_of_today(rt: HostRuntime) {
    let facts = "started X\nterm xterm\nsize 90x24\n";
    let note = "note size: recorded at 90x24, played at 80x24\n";
    for (player, outcome, noted) in &[(ASKED, NOTED, note), (Player::Today(None), DONE, "")] {
        let ended = do_job(
            rt.alloc(),
            Job::Check { player: *player },
            WIDE,
            AB.as_bytes(),
            b"",
        );
        let text = str::from_utf8(ended.text.as_slice()).unwrap_or("");
        assert_eq!(&rt;
            (ended.outcome, text.strip_prefix(facts)),
            (*outcome, Some(*noted))
        );
    }
}

/// A header, and how many of the two sequences of `SEQUENCES` aren't played by the terminal that it tells: both by a VT100,
/// one by a VT102, and none by a terminal of today.
const TOLD_PROFILES: [(&str, usize); 10] = [
    ("Script started on X [TERM=\"vt100-nav\"]", 2),
    ("Script started on X [TERM=\"vt52\"]", 2),
    ("Script started on X [TERM=\"vt102-\"]", 1),
    ("junk TERM=\"vt102\"", 1),
    ("Script started on X [TERM=\"vt1000\"]", 0),
    ("Script started on X [TERM=\"VT100\"]", 0),
    ("Script started on X [TERM=\"vt220\"]", 0),
    ("Script started on X [TERM=\"\"]", 0),
    ("Script started on X [<not executed on terminal>]", 0),
    ("Script started on X", 0),
];

/// DCH, which a VT102 has, and the alternate screen, which it doesn't have.
const SEQUENCES: &str = "\x1b[P\x1b[?1049h";

#[test]
fn the_header_tells_the_profile(rt: HostRuntime) -> Result<(), Fail> {
    let job = Job::Check {
        player: Player::Auto(None),
    };
    for (header, unplayed) in TOLD_PROFILES {
        let script = format!(in rt.alloc(); "{header}\n{SEQUENCES}")?;
        let ended = do_job(rt.alloc(), job, script.as_bytes(), b"0 11\n", b"");
        let text = str::from_utf8(ended.text.as_slice()).unwrap_or("");
        let told = text
            .lines()
            .filter(|line| line.starts_with("unplayed "))
            .count();
        assert_eq!(&rt; (ended.outcome.fault, told), (None, unplayed), "{header}");
    }
    Ok(())
}

/// A recording of another size and terminal, and the note that is told of it.
const WIDE: &[u8] = b"Script started on X [TERM=\"xterm\" COLUMNS=\"90\" LINES=\"24\"]\nab";

const NOTE: &str =
    "typetool: note: size: recorded at 90x24, played at 80x24; term: recorded under xterm, played as vt100 (see typetool check, or try --profile xterm)\n";

/// Sees that a job tells this note of that recording, and none of one that isn't read.
fn compare_note<R: Abort + AllocGlobal>(rt: &R, job: Job, note: &str) {
    let ended = do_job(rt.alloc(), job, WIDE, AB.as_bytes(), b"");
    assert_eq!(rt;
        (ended.outcome.fault, ended.note.as_slice()),
        (None, note.as_bytes()),
        "{job:?}"
    );
    let unread = do_job(rt.alloc(), job, WIDE, b"0 9\n", b"");
    assert_eq!(rt;
        (unread.outcome.fault, unread.note.len()),
        (Some(JobFault::File(Fault::ScriptShort(0))), 0),
        "{job:?}"
    );
}

#[test]
fn jobs_that_play_tell_a_note(rt: HostRuntime) {
    let player = Player::Vt(Profile::Vt100);
    let (from, to, at) = (None, 9, 9);
    let told = [
        Job::Screen {
            at,
            print: Print::Plain(player),
        },
        Job::Picture { at, player },
        Job::Changes { from, to, player },
        Job::Find { from, to, player },
        Job::Reports { at, player },
        Job::Page { player },
        Job::Cast { player },
        Job::Redact { player },
        Job::Session { every: 1, player },
    ];
    for job in &told {
        compare_note(&rt, *job, NOTE);
    }
    for job in &[Job::Due { at }, Job::Info, Job::Save] {
        compare_note(&rt, *job, "");
    }
}

/// A size that isn't told.
const ASKED: Player = Player::Today(Some(Measure {
    columns: 80,
    lines: 24,
}));

/// A terminal of today notes the size that it plays, and advises nothing.
#[test]
fn a_terminal_of_today_tells_a_note(rt: HostRuntime) {
    let at = 9;
    let told = "typetool: note: size: recorded at 90x24, played at 80x24 (see typetool check)\n";
    for (player, note) in &[(ASKED, told), (Player::Today(None), "")] {
        let screen = Job::Screen {
            at,
            print: Print::Plain(*player),
        };
        let escaped = Job::Screen {
            at,
            print: Print::Escaped(*player),
        };
        compare_note(&rt, screen, note);
        compare_note(&rt, escaped, note);
    }
}

/// A note that can't be written changes nothing.
#[test]
fn a_note_that_fails_is_passed_over(rt: HostRuntime) -> Result<(), Fail> {
    let job = Job::Reports {
        at: 9,
        player: Player::Vt(Profile::Vt100),
    };
    let mut out = Watched::new(Vec::new(rt.alloc()));
    let mut room = [0; 9];
    let mut note = Watched::new(room.as_mut_slice());
    let outcome = run_with(
        rt.alloc(),
        job,
        &[],
        &mut Watched::new(WIDE),
        &mut Watched::new(AB.as_bytes()),
        &mut Watched::new(io::empty()),
        &mut out,
        &mut Watched::new(io::sink()),
        &mut note,
    );
    assert_eq!(rt;
        (outcome, out.into_inner().as_slice(), note.failed()),
        (DONE, b"\n".as_slice(), true)
    );
    Ok(())
}
