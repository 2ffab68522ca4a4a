//! The texts of faults, which a user is told.
use crate::comparison::{Case, compare};
use command_line::{Job, Player, WordsFault};
use std::alloc::{AllocError, Global};
use std::process::Abort;
use std::test::Fail;
use tape_core::Fault;
use tape_jobs::{JobFault, Outcome};
use tape_seek::EditFault;
use vt_term::Profile;

/// Each fault of an edit, as `save` tells it of a request line.
const OF_EDITS: [(EditFault, &str); 8] = [
    (EditFault::NoSuchChunk, "request line 7: E1 NoSuchChunk"),
    (EditFault::DelayTooLarge, "request line 7: E2 DelayTooLarge"),
    (EditFault::ChunkTooLong, "request line 7: E3 ChunkTooLong"),
    (EditFault::TooManyChunks, "request line 7: E4 TooManyChunks"),
    (EditFault::TooManyBytes, "request line 7: E5 TooManyBytes"),
    (EditFault::BadRange, "request line 7: E6 BadRange"),
    (EditFault::OutOfMemory, "request line 7: E7 OutOfMemory"),
    (EditFault::BadLine, "request line 7: E8 BadLine"),
];

fn text_of(alloc: Global, fault: JobFault) -> Result<String, AllocError> {
    format!(in alloc; "{fault}")
}

#[test]
fn a_refused_line_is_told_by_its_number_and_its_fault(rt: HostRuntime) -> Result<(), Fail> {
    for (fault, wanted) in OF_EDITS {
        let text = text_of(rt.alloc(), JobFault::Line { line: 7, fault })?;
        assert_eq!(rt; text.as_str(), wanted);
    }
    let last = JobFault::Line {
        line: u64::MAX,
        fault: EditFault::BadLine,
    };
    let text = text_of(rt.alloc(), last)?;
    assert_eq!(rt;
        text.as_str(),
        "request line 18446744073709551615: E8 BadLine"
    );
    Ok(())
}

#[test]
fn a_job_fault_has_the_text_of_its_fault(rt: HostRuntime) -> Result<(), Fail> {
    let texts = [
        (
            JobFault::File(Fault::ScriptShort(0)),
            "typescript ends inside chunk 0",
        ),
        (
            JobFault::File(Fault::BadDelay(22)),
            "timing line 22: bad delay",
        ),
        (JobFault::File(Fault::WriteFault), "write fault"),
        (JobFault::Compressed, "recording is compressed"),
        (JobFault::NoKnownForm, "recording of no known form"),
        (
            JobFault::Edit {
                fault: EditFault::TooManyChunks,
            },
            "E4 TooManyChunks",
        ),
        (
            JobFault::Edit {
                fault: EditFault::TooManyBytes,
            },
            "E5 TooManyBytes",
        ),
        (JobFault::Memory, "out of memory"),
    ];
    for (fault, wanted) in texts {
        let text = text_of(rt.alloc(), fault)?;
        assert_eq!(rt; text.as_str(), wanted);
    }
    Ok(())
}

#[test]
fn a_line_that_is_no_job_is_told_why(rt: HostRuntime) -> Result<(), Fail> {
    let texts = [
        (WordsFault::BadSeconds, "bad seconds"),
        (WordsFault::BadEvery, "bad number of chunks: 1 to 1000000"),
        (
            WordsFault::BadProfile,
            "bad profile: vt100, vt102, xterm or auto",
        ),
        (
            WordsFault::BadSize,
            "bad size: 2x1 to 1000x500, with --profile xterm",
        ),
        (WordsFault::BadText, "bad text"),
        (WordsFault::Memory, "out of memory"),
    ];
    for (fault, wanted) in texts {
        let text = format!(in rt.alloc(); "{fault}")?;
        assert_eq!(rt; text.as_str(), wanted);
    }
    Ok(())
}

/// An edit that both jobs refuse: the timing of chunks without bytes, its line, and its fault with the name.
type Refused<'a> = (&'a str, &'a str, EditFault, &'a str);

/// A job over the chunks of such a row that ends with status 1.
fn refused_by<'a>(row: Refused<'a>, job: Job, text: &'a str, fault: Option<JobFault>) -> Case<'a> {
    let (timing, requests, _, _) = row;
    Case {
        job,
        body: "",
        timing,
        requests,
        text,
        new_timing: "",
        outcome: Outcome { status: 1, fault },
    }
}

/// Sees what `save` and `session` tell of an edit that they refuse.
fn compare_refused<R: Abort + AllocGlobal>(rt: &R, row: Refused<'_>) -> Result<(), Fail> {
    let (_, _, fault, name) = row;
    let answer = ["refused ", name, "\n"].concat(rt.alloc())?;
    let session = Job::Session {
        every: 100,
        player: Player::Vt(Profile::Vt100),
    };
    let line = JobFault::Line { line: 1, fault };
    compare(rt, &refused_by(row, Job::Save, "", Some(line)))?;
    compare(rt, &refused_by(row, session, answer.as_str(), None))
}

/// Edits of a recording of no chunks, or of one. E4 and E5 stand in tests/limits.py, since they take a large recording.
const REFUSED: [Refused<'static>; 9] = [
    ("", "replace 0 -", EditFault::NoSuchChunk, "E1 NoSuchChunk"),
    (
        "0 0\n",
        "insert 2 0 -",
        EditFault::NoSuchChunk,
        "E1 NoSuchChunk",
    ),
    (
        "0 0\n",
        "retime 1 0",
        EditFault::NoSuchChunk,
        "E1 NoSuchChunk",
    ),
    (
        "0 0\n",
        "retime 0 1000000.000001",
        EditFault::DelayTooLarge,
        "E2 DelayTooLarge",
    ),
    (
        "",
        "cap 1000000.000001",
        EditFault::DelayTooLarge,
        "E2 DelayTooLarge",
    ),
    ("", "delete 0 0", EditFault::BadRange, "E6 BadRange"),
    ("", "nonsense", EditFault::BadLine, "E8 BadLine"),
    ("", "cap 1 2", EditFault::BadLine, "E8 BadLine"),
    ("", "cap 1\r\n", EditFault::BadLine, "E8 BadLine"),
];

#[test]
fn save_and_session_name_the_fault(rt: HostRuntime) -> Result<(), Fail> {
    for row in REFUSED {
        compare_refused(&rt, row)?;
    }
    Ok(())
}

/// A byte more than a chunk may have.
#[test]
fn save_and_session_name_a_chunk_too_long(rt: HostRuntime) -> Result<(), Fail> {
    let bytes = "41".repeat(rt.alloc(), 1_048_577)?;
    let line = ["insert 0 0 ", bytes.as_str()].concat(rt.alloc())?;
    compare_refused(
        &rt,
        (
            "",
            line.as_str(),
            EditFault::ChunkTooLong,
            "E3 ChunkTooLong",
        ),
    )
}
