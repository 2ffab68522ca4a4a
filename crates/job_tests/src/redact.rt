//! The call `redact` over texts in memory: rows by hand, of the new pair and of what is told.
use crate::in_memory::{DONE, do_job_beside};
use command_line::{Job, Player};
use std::io;
use std::process::Abort;
use std::test::Fail;
use tape_core::{Fault, Watched};
use tape_jobs::{JobFault, Outcome, redact};
use vt_term::Profile;

/// A text that is taken out, a typescript, and its timing file.
type Given<'a> = (&'a [char], &'a [u8], &'a [u8]);

/// The new pair, what is told, and the outcome.
type Wanted<'a> = (&'a [u8], &'a [u8], &'a [u8], Outcome);

/// The text stood nowhere, or something of it may be left.
const LEFT: Outcome = Outcome {
    status: 1,
    fault: None,
};

/// The pair has a fault.
const REFUSED: Outcome = Outcome {
    status: 3,
    fault: Some(JobFault::File(Fault::BadCount(1))),
};

const SECRET: &[char] = &['s', 'e', 'c', 'r', 'e', 't'];

const ROWS: [(Given<'static>, Wanted<'static>); 13] = [
    // Over the border of two chunks.
    (
        (SECRET, b"Script started on X\nsecret x", b"0 2\n0.5 6\n"),
        (
            b"Script started on X\n****** x",
            b"0.000000 2\n0.500000 6\n",
            b"redacted 1\n",
            DONE,
        ),
    ),
    // Typed with a correction.
    (
        (SECRET, b"Script started on X\nsex\x08cret", b"0 8\n"),
        (
            b"Script started on X\nsex\x08cret",
            b"0.000000 8\n",
            b"redacted 0\n+ 0 0.000000 1 1 secret\n",
            LEFT,
        ),
    ),
    (
        (&['a', 'a'], b"Script started on X\naaa", b"0 3\n"),
        (
            b"Script started on X\n***",
            b"0.000000 3\n",
            b"redacted 2\n",
            DONE,
        ),
    ),
    // Each overlaps the one before it.
    (
        (&['a', 'a'], b"Script started on X\naaaa", b"0 4\n"),
        (
            b"Script started on X\n****",
            b"0.000000 4\n",
            b"redacted 3\n",
            DONE,
        ),
    ),
    // Two that overlap, and one apart, at the very end.
    (
        (
            &['a', 'b', 'a'],
            b"Script started on X\nababa xaba",
            b"0 10\n",
        ),
        (
            b"Script started on X\n***** x***",
            b"0.000000 10\n",
            b"redacted 3\n",
            DONE,
        ),
    ),
    // Two that touch, and a beginning of one.
    (
        (&['a', 'b'], b"Script started on X\nxababa", b"0 6\n"),
        (
            b"Script started on X\nx****a",
            b"0.000000 6\n",
            b"redacted 2\n",
            DONE,
        ),
    ),
    // Longer than 32 bytes.
    (
        (
            &['a'; 40],
            b"Script started on X\naaaaaaaaaaaaaaaaaaaaaaaaaaaaaaaaaaaaaaaaaa",
            b"0 42\n",
        ),
        (
            b"Script started on X\n******************************************",
            b"0.000000 42\n",
            b"redacted 3\n",
            DONE,
        ),
    ),
    // Longer than the typescript.
    (
        (&['x'; 40], b"Script started on X\nxxx", b"0 3\n"),
        (
            b"Script started on X\nxxx",
            b"0.000000 3\n",
            b"redacted 0\n",
            LEFT,
        ),
    ),
    // Into the trailer.
    (
        (&['a', 'b'], b"Script started on X\nab", b"0 1\n"),
        (
            b"Script started on X\n**",
            b"0.000000 1\n",
            b"redacted 1\n",
            LEFT,
        ),
    ),
    // In the header, which tells no size then.
    (
        (
            &['1', '0', '0'],
            b"Script started on X [TERM=\"ansi\" COLUMNS=\"100\" LINES=\"30\"]\nab",
            b"0 2\n",
        ),
        (
            b"Script started on X [TERM=\"ansi\" COLUMNS=\"***\" LINES=\"30\"]\nab",
            b"0.000000 2\n",
            b"redacted 1\n",
            LEFT,
        ),
    ),
    // The closing line stays.
    (
        (
            &['é'],
            b"Script started on X\ncaf\xc3\xa9\nScript done on X\n",
            b"0 5\n",
        ),
        (
            b"Script started on X\ncaf**\nScript done on X\n",
            b"0.000000 5\n",
            b"redacted 1\n",
            DONE,
        ),
    ),
    // Nowhere.
    (
        (&['y'], b"Script started on X\nx", b"0 1\n"),
        (
            b"Script started on X\nx",
            b"0.000000 1\n",
            b"redacted 0\n",
            LEFT,
        ),
    ),
    (
        (&['y'], b"Script started on X\nx", b"0.1\n"),
        (b"", b"", b"", REFUSED),
    ),
];

/// Redacts in memory, and compares what comes out.
fn compare_redaction<R: Abort + AllocGlobal>(
    rt: &R,
    player: Player,
    given: Given<'_>,
    wanted: Wanted<'_>,
) {
    let (text, script, timing) = given;
    let mut out = Watched::new(Vec::new(rt.alloc()));
    let mut out_timing = Watched::new(Vec::new(rt.alloc()));
    let mut told = Watched::new(Vec::new(rt.alloc()));
    let mut found = Watched::new(Vec::new(rt.alloc()));
    let mut note = Watched::new(Vec::new(rt.alloc()));
    let outcome = redact(
        rt.alloc(),
        player,
        text,
        &mut Watched::new(script),
        &mut Watched::new(timing),
        &mut out,
        &mut out_timing,
        &mut told,
        &mut found,
        &mut note,
    );
    let pair = (out.into_inner(), out_timing.into_inner());
    let texts = (told.into_inner(), found.into_inner());
    let count = texts.0.len();
    assert_eq!(rt;
        (pair.0.as_slice(), pair.1.as_slice(), outcome),
        (wanted.0, wanted.1, wanted.3),
        "{text:?}"
    );
    assert_eq!(rt;
        (texts.0.as_slice(), Some(texts.1.as_slice())),
        (
            &wanted.2[..count.min(wanted.2.len())],
            wanted.2.get(count..)
        ),
        "{text:?}"
    );
}

#[test]
fn redact_takes_a_text_out(rt: HostRuntime) {
    for (given, wanted) in ROWS {
        compare_redaction(&rt, Player::Vt(Profile::Vt100), given, wanted);
    }
}

/// It stands nowhere among many beginnings of it, and then once, at their end.
#[test]
fn redact_searches_a_long_script(rt: HostRuntime) -> Result<(), Fail> {
    let mut script = b"Script started on X\n".to_vec(rt.alloc())?;
    for _ in 0..4096 {
        script.extend_from_slice(b"secre\r\n")?;
    }
    compare_redaction(
        &rt,
        Player::Vt(Profile::Vt100),
        (SECRET, script.as_slice(), b"0 28672\n"),
        (
            script.as_slice(),
            b"0.000000 28672\n",
            b"redacted 0\n",
            LEFT,
        ),
    );
    let mut new_script = script.clone()?;
    script.extend_from_slice(b"secret")?;
    new_script.extend_from_slice(b"******")?;
    compare_redaction(
        &rt,
        Player::Vt(Profile::Vt100),
        (SECRET, script.as_slice(), b"0 28678\n"),
        (
            new_script.as_slice(),
            b"0.000000 28678\n",
            b"redacted 1\n",
            DONE,
        ),
    );
    Ok(())
}

/// A size in the header that is taken out plays the new recording all the same, where the text then comes to stand.
#[test]
fn redact_keeps_the_size_of_a_terminal_of_today(rt: HostRuntime) -> Result<(), Fail> {
    let script =
        b"Script started on X [TERM=\"xterm\" TTY=\"/dev/pts/0\" COLUMNS=\"100\" LINES=\"30\"]\n\x1b[1;95H1\x1b[1;96H00";
    let new_script =
        b"Script started on X [TERM=\"xterm\" TTY=\"/dev/pts/0\" COLUMNS=\"***\" LINES=\"30\"]\n\x1b[1;95H1\x1b[1;96H00";
    let told = format!(in rt.alloc(); "redacted 1\n+ 0 0.000000 1 95 {:>97}\n", 100)?;
    compare_redaction(
        &rt,
        Player::Today(None),
        (&['1', '0', '0'], script.as_slice(), b"0 17\n"),
        (
            new_script.as_slice(),
            b"0.000000 17\n",
            told.as_bytes(),
            LEFT,
        ),
    );
    Ok(())
}

/// What is taken out of the name of the terminal changes the one that the header tells.
#[test]
fn redact_keeps_the_profile_that_the_header_tells(rt: HostRuntime) {
    let name = ['v', 't', '1', '0', '2'].as_slice();
    let script = b"Script started on X [TERM=\"vt102\"]\nsecret".as_slice();
    let renamed = b"Script started on X [TERM=\"*****\"]\nsecret".as_slice();
    let redacted = b"Script started on X [TERM=\"vt102\"]\n******".as_slice();
    let rows = [
        (Player::Auto(None), name, renamed, LEFT),
        (Player::Auto(None), SECRET, redacted, DONE),
        (Player::Vt(Profile::Vt102), name, renamed, DONE),
    ];
    for (player, text, new_script, outcome) in &rows {
        let given = (*text, script, b"0 6\n".as_slice());
        let wanted = (
            *new_script,
            b"0.000000 6\n".as_slice(),
            b"redacted 1\n".as_slice(),
            *outcome,
        );
        compare_redaction(&rt, *player, given, wanted);
    }
}

/// A writer of find lines that took bytes before doesn't change the status.
#[test]
fn redact_goes_by_its_own_lines(rt: HostRuntime) {
    let typed = b"Script started on X\nsecret sex\x08cret".as_slice();
    let untyped = b"Script started on X\nsecret, no more".as_slice();
    let mut found = Watched::new(Vec::new(rt.alloc()));
    for (script, status) in [(typed, 1), (untyped, 0), (typed, 1)] {
        assert!(rt; !found.failed(), "a vector takes every byte");
        let outcome = redact(
            rt.alloc(),
            Player::Vt(Profile::Vt100),
            SECRET,
            &mut Watched::new(script),
            &mut Watched::new(b"0 15\n".as_slice()),
            &mut Watched::new(io::sink()),
            &mut Watched::new(io::sink()),
            &mut Watched::new(io::sink()),
            &mut found,
            &mut Watched::new(io::sink()),
        );
        assert_eq!(rt; (outcome.status, outcome.fault), (status, None));
    }
    assert_eq!(rt;
        found.into_inner().as_slice(),
        b"+ 0 0.000000 1 8 ****** secret\n+ 0 0.000000 1 8 ****** secret\n".as_slice()
    );
}

/// The job of that name writes the same pair, and has the same status.
#[test]
fn run_takes_a_text_out(rt: HostRuntime) {
    let job = Job::Redact {
        player: Player::Vt(Profile::Vt100),
    };
    for ((text, script, timing), wanted) in ROWS {
        let ended = do_job_beside(rt.alloc(), job, text, script, timing, b"");
        let pair = (ended.text.as_slice(), ended.new_timing.as_slice());
        assert_eq!(rt;
            (pair, ended.outcome),
            ((wanted.0, wanted.1), wanted.3),
            "{text:?}"
        );
    }
}
