use crate::comparison::{Case, compare, compare_over, done};
use crate::in_memory::AB;
use command_line::{Job, Measure, Player};
use std::process::Abort;
use std::test::Fail;
use tape_jobs::Outcome;
use vt_term::Profile;

/// Twenty-three lines' ends: a screen of which the first line alone shows something.
const LINES_23: &str = "\n\n\n\n\n\n\n\n\n\n\n\n\n\n\n\n\n\n\n\n\n\n\n";

/// A session over a body and a timing: its request lines, its answers, and its status.
type Row<'a> = (&'a str, &'a str, &'a str, &'a str, u8);

fn session(every: usize) -> Job {
    Job::Session {
        every,
        player: Player::Vt(Profile::Vt100),
    }
}

/// What each line is answered.
const ANSWERS: [Row<'static>; 7] = [
    ("ab", AB, "", "", 0),
    (
        "\x1b[cx",
        "0 3\n0 1\n",
        "reports 0\ndelete 0 1\nreports 0\nscreen 0\n",
        "1b5b3f313b3263\nok\n\nx\n\n\n\n\n\n\n\n\n\n\n\n\n\n\n\n\n\n\n\n\n\n\n\n",
        0,
    ),
    (
        "ab",
        AB,
        "retime 0 1\ninfo\nlog\n",
        "ok\nchunks 2\nbytes 2\nlength 1.500000\nheader 20\ntrailer 0\nretime 0 1.000000\nend\n",
        0,
    ),
    (
        "ab",
        AB,
        "nonsense\nchanges - 0",
        "refused E8 BadLine\n0 0.000000 1\nend\n",
        1,
    ),
    (
        "abc",
        "0.5 1\n3 1\n2 1\n",
        "cap 1000000.000001\ncap 1000000\n\nlog",
        "refused E2 DelayTooLarge\nok\ncap 1000000.000000\nend\n",
        1,
    ),
    (
        "a\x1b[m\x1b[3;1Hb",
        "0 1\n0 3\n1.5 7\n",
        "changes 0 2\nchanges 2 1\n \t\nlog\n",
        "2 1.500000 3\nend\nend\nend\n",
        0,
    ),
    (
        "0123456789",
        "0 1\n0 1\n0 1\n0 1\n0 1\n0 1\n0 1\n0 1\n0 1\n0 1\n",
        "delete 3 3\ninsert 11 0 -\ninsert 0 1000000.000001 -\nlog\n",
        "refused E6 BadRange\nrefused E1 NoSuchChunk\nrefused E2 DelayTooLarge\nend\n",
        1,
    ),
];

#[test]
fn each_line_is_answered(rt: HostRuntime) -> Result<(), Fail> {
    for row in &ANSWERS {
        compare_row(&rt, session(100), row)?;
    }
    Ok(())
}

/// A session over a terminal of today of six columns and two lines.
fn session_of_today(every: usize) -> Job {
    Job::Session {
        every,
        player: Player::Today(Some(Measure {
            columns: 6,
            lines: 2,
        })),
    }
}

/// What each line is answered over it.
const ANSWERS_OF_TODAY: [Row<'static>; 4] = [
    (
        "日本\x1b[6n",
        "0 6\n0.5 4\n",
        "screen 0\nreports 1\nchanges - 1\nreplace 0 61\nscreen 1\nreports 1\nlog\n",
        "日本\n\n1b5b313b3552\n0 0.000000 1\nend\nok\na\n\n1b5b313b3252\nreplace 0 61\nend\n",
        0,
    ),
    // An edit behind the first byte of a character.
    (
        "日",
        "0 1\n0.5 2\n",
        "screen 0\nscreen 1\ninsert 1 0 41\nscreen 0\nscreen 1\n",
        "\n\n日\n\nok\n\u{fffd}A\n\n\u{fffd}A\u{fffd}\u{fffd}\n\n",
        0,
    ),
    // One screen in place of another, and a rendition alone.
    (
        "ab\x1b[?1049h\x1b[41m\x1b[J",
        "0 2\n0 8\n0.5 8\n",
        "changes - 1\nscreen 1\ndelete 1 2\nchanges 0 1\nscreen 1\n",
        "0 0.000000 1\n1 0.000000 1\n2 0.500000 1 2\nend\n\n\nok\n1 0.500000 1 2\nend\nab\n\n",
        0,
    ),
    (
        "é",
        "0 2\n",
        "delete 1 2\nscreen\n\nscreen 0",
        "refused E6 BadRange\nrefused E8 BadLine\né\n\n",
        1,
    ),
];

#[test]
fn each_line_is_answered_over_today(rt: HostRuntime) -> Result<(), Fail> {
    for row in &ANSWERS_OF_TODAY {
        for every in [1, 100] {
            compare_row(&rt, session_of_today(every), row)?;
        }
    }
    Ok(())
}

/// The size is that of the header, which no edit changes.
#[test]
fn a_header_tells_the_size_of_a_session(rt: HostRuntime) {
    let job = Job::Session {
        every: 100,
        player: Player::Today(None),
    };
    let script = b"Script started on X [COLUMNS=\"5\" LINES=\"2\"]\nabcdef";
    let case = Case {
        requests: "screen 0\ninsert 0 0 30\nscreen 0\ndelete 0 2\nscreen 0\n",
        ..done(job, "", "0 6\n", "abcde\nf\nok\n0abcd\nef\nok\n\n\n")
    };
    compare_over(&rt, script, &case);
}

/// Where terminals are stored changes no answer. A number out of range counts as the nearest one in it.
#[test]
fn sessions_of_any_every_answer_alike(rt: HostRuntime) -> Result<(), Fail> {
    let text = ["ab\n", LINES_23, "a\n", LINES_23, "\n"].concat(rt.alloc())?;
    let row = (
        "ab",
        AB,
        "screen 9\nscreen 0\nreports 1\n",
        text.as_str(),
        0,
    );
    for every in [0, 1, 2, 100, 1_000_000, 1_000_001, usize::MAX] {
        compare_row(&rt, session(every), &row)?;
    }
    Ok(())
}

/// Does the job in memory, and compares what came out.
fn compare_row<R: Abort + AllocGlobal>(rt: &R, job: Job, row: &Row<'_>) -> Result<(), Fail> {
    let (body, timing, requests, text, status) = *row;
    let outcome = Outcome {
        status,
        fault: None,
    };
    let case = Case {
        job,
        body,
        timing,
        requests,
        text,
        new_timing: "",
        outcome,
    };
    compare(rt, &case)
}
