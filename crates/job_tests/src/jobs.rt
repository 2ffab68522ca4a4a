use crate::comparison::{Case, compare, done};
use crate::in_memory::{AB, DONE};
use command_line::{Job, Player};
use std::alloc::Global;
use std::fmt::Write;
use std::process::Abort;
use std::test::Fail;
use tape_core::Fault;
use tape_jobs::{JobFault, Outcome};
use tape_seek::EditFault;
use vt_term::Profile;

#[test]
fn info_tells_what_a_recording_holds(rt: HostRuntime) -> Result<(), Fail> {
    compare_all(
        &rt,
        &[
            done(
                Job::Info,
                "ab",
                AB,
                "chunks 2\nbytes 2\nlength 0.500000\nheader 20\ntrailer 0\n",
            ),
            done(
                Job::Info,
                "",
                "",
                "chunks 0\nbytes 0\nlength 0.000000\nheader 20\ntrailer 0\n",
            ),
            done(
                Job::Info,
                "abcde",
                "1000000 1\n-3 0\n1.0000019 2",
                "chunks 3\nbytes 3\nlength 1000001.000001\nheader 20\ntrailer 2\n",
            ),
            Case {
                job: Job::Info,
                body: "",
                timing: "0 1\n",
                requests: "",
                text: "",
                new_timing: "",
                outcome: Outcome {
                    status: 1,
                    fault: Some(JobFault::File(Fault::ScriptShort(0))),
                },
            },
        ],
    )
}

/// Three chunks: `a`, a rendition, and `b` on line 3.
const THREE: &str = "a\x1b[m\x1b[3;1Hb";

/// Their timing: the first two at once, and the third one and a half seconds later.
const THREE_TIMING: &str = "0 1\n0 3\n1.5 7\n";

#[test]
fn changes_tells_what_each_chunk_changes(rt: HostRuntime) -> Result<(), Fail> {
    let rows: [(Option<u64>, u64, &str); 7] = [
        (None, 2_000_000, "0 0.000000 1\n2 1.500000 3\n"),
        (None, 1_499_999, "0 0.000000 1\n"),
        (None, 1_500_000, "0 0.000000 1\n2 1.500000 3\n"),
        (Some(0), 2_000_000, "2 1.500000 3\n"),
        (Some(1_499_999), 1_500_000, "2 1.500000 3\n"),
        (Some(1_500_000), 2_000_000, ""),
        (Some(2_000_000), 1_000_000, ""),
    ];
    for (from, to, text) in rows {
        let job = Job::Changes {
            from,
            to,
            player: Player::Vt(Profile::Vt100),
        };
        compare(&rt, &done(job, THREE, THREE_TIMING, text))?;
    }
    Ok(())
}

/// Chunks a second apart, and the change lines of all of them.
type Changed<'a> = (&'a [&'a str], &'a str);

/// What a chunk changes where no character in the first 80 columns differs.
const CHANGED: [Changed<'static>; 12] = [
    (&[], ""),
    // A rendition alone: each attribute, none again, and a blank cell in reverse.
    (&["a", "\x1b[H\x1b[1ma"], "0 1.000000 1\n1 2.000000 1\n"),
    (&["a", "\x1b[H\x1b[4ma"], "0 1.000000 1\n1 2.000000 1\n"),
    (&["a", "\x1b[H\x1b[5ma"], "0 1.000000 1\n1 2.000000 1\n"),
    (&["a", "\x1b[H\x1b[7ma"], "0 1.000000 1\n1 2.000000 1\n"),
    (
        &["\x1b[7ma", "\x1b[H\x1b[ma"],
        "0 1.000000 1\n1 2.000000 1\n",
    ),
    (&["\x1b[7m", "\x1b[3;1H", " "], "2 3.000000 3\n"),
    // A size alone, on a blank line.
    (
        &["\x1b[5;1H", "\x1b#6", "\x1b#3", "\x1b#4", "\x1b#5"],
        "1 2.000000 5\n2 3.000000 5\n3 4.000000 5\n4 5.000000 5\n",
    ),
    // A column past the 80th, and the last one.
    (
        &["\x1b[?3h", "\x1b[2;81Hx", "\x1b[3;132Hx"],
        "1 2.000000 2\n2 3.000000 3\n",
    ),
    // A character in place of the same one.
    (&["ab", "\x1b[Hab"], "0 1.000000 1\n"),
    // No line: the number of columns, a reversed screen, the cursor, what a character is put with.
    (&["\x1b[?3h", "\x1b[?5h", "\x1b[9;9H", "\x1b[1m"], ""),
    // All lines.
    (
        &["\x1b#8", "\x1b[2J"],
        "0 1.000000 1 2 3 4 5 6 7 8 9 10 11 12 13 14 15 16 17 18 19 20 21 22 23 24\n1 2.000000 1 2 3 4 5 6 7 8 9 10 11 12 13 14 15 16 17 18 19 20 21 22 23 24\n",
    ),
];

/// The timing of such chunks.
fn timing_of(alloc: Global, chunks: &[&str]) -> Result<String, Fail> {
    let mut timing = String::new(alloc);
    for chunk in chunks {
        writeln!(timing, "1 {}", chunk.len())?;
    }
    Ok(timing)
}

#[test]
fn changes_tells_of_renditions_sizes_and_wide_lines(rt: HostRuntime) -> Result<(), Fail> {
    let job = Job::Changes {
        from: None,
        to: 9_000_000,
        player: Player::Vt(Profile::Vt100),
    };
    for (chunks, lines) in &CHANGED {
        let body = chunks.concat(rt.alloc())?;
        let timing = timing_of(rt.alloc(), chunks)?;
        compare(&rt, &done(job, body.as_str(), timing.as_str(), lines))?;
    }
    Ok(())
}

/// A case of `save` over a body, a timing and request lines, which is done: the new script and the new timing.
fn saved<'a>(
    body: &'a str,
    timing: &'a str,
    requests: &'a str,
    new_body: &'a str,
    new_timing: &'a str,
) -> Case<'a> {
    Case {
        job: Job::Save,
        body,
        timing,
        requests,
        text: new_body,
        new_timing,
        outcome: DONE,
    }
}

/// A case of `save` over two chunks, whose line of this number is refused.
fn refused<'a>(row: &(&'a str, u64, EditFault)) -> Case<'a> {
    let (requests, line, fault) = *row;
    Case {
        job: Job::Save,
        body: "ab",
        timing: AB,
        requests,
        text: "",
        new_timing: "",
        outcome: Outcome {
            status: 1,
            fault: Some(JobFault::Line { line, fault }),
        },
    }
}

#[test]
fn save_writes_both_files(rt: HostRuntime) -> Result<(), Fail> {
    compare_all(
        &rt,
        &[
            saved("ab", AB, "", "Script started on X\nab", AB),
            saved(
                "ab",
                AB,
                "insert 1 0.25 58\n",
                "Script started on X\naXb",
                "0.000000 1\n0.250000 1\n0.500000 1\n",
            ),
            saved(
                "abc",
                " 0.1\t2 \n\n-0.5 1",
                "",
                "Script started on X\nabc",
                "0.100000 2\n0.000000 1\n",
            ),
            saved(
                "abc",
                "0.5 1\n3 1\n2 1\n",
                "cap 2",
                "Script started on X\nabc",
                "0.500000 1\n2.000000 1\n2.000000 1\n",
            ),
            saved(
                "abctrailer",
                "1 1\n1 1\n1 1\n",
                "\n \t\ndelete 0 1\nreplace 0 4142\n\nretime 1 0.5\n",
                "Script started on X\nABctrailer",
                "1.000000 2\n0.500000 1\n",
            ),
        ],
    )
}

/// Request lines that `save` refuses: the line's number, and why.
const REFUSED: [(&str, u64, EditFault); 15] = [
    ("delete 0 1\n\ndelete 5 6\n", 3, EditFault::BadRange),
    ("insert 3 0 -", 1, EditFault::NoSuchChunk),
    ("insert 0 1000000.000001 -", 1, EditFault::DelayTooLarge),
    ("\n\ncap 1000000.000001\n", 3, EditFault::DelayTooLarge),
    ("cap 1\ncap\n", 2, EditFault::BadLine),
    ("cap 1 2\n", 1, EditFault::BadLine),
    ("insert 0 0 61\r\n", 1, EditFault::BadLine),
    // What a session is asked, each by itself and behind an edit.
    ("screen 0\n", 1, EditFault::BadLine),
    ("reports 0\n", 1, EditFault::BadLine),
    ("changes - 1\n", 1, EditFault::BadLine),
    ("changes 0 1\n", 1, EditFault::BadLine),
    ("info\n", 1, EditFault::BadLine),
    ("log\n", 1, EditFault::BadLine),
    ("cap 1\n\nlog\n", 3, EditFault::BadLine),
    ("cap 1\nscreen 0", 2, EditFault::BadLine),
];

#[test]
fn save_refuses_a_line_and_writes_nothing(rt: HostRuntime) -> Result<(), Fail> {
    for row in &REFUSED {
        compare(&rt, &refused(row))?;
    }
    Ok(())
}

#[test]
fn save_judges_the_pair_before_the_lines(rt: HostRuntime) -> Result<(), Fail> {
    let case = Case {
        job: Job::Save,
        body: "ab",
        timing: "0 3\n",
        requests: "nonsense",
        text: "",
        new_timing: "",
        outcome: Outcome {
            status: 1,
            fault: Some(JobFault::File(Fault::ScriptShort(0))),
        },
    };
    compare(&rt, &case)
}

/// Does each job in memory, and compares what came out.
fn compare_all<R: Abort + AllocGlobal>(rt: &R, cases: &[Case<'_>]) -> Result<(), Fail> {
    for case in cases {
        compare(rt, case)?;
    }
    Ok(())
}
