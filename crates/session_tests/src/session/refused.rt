//! Refused growths. `tests/refused.py` runs these with the first, second, .. growth of memory refused, until none is, and
//! counts the lines `refused: WHAT`. After a refusal all is as before, and the same call then answers.
use std::alloc::{AllocError, Global};
use std::process::Abort;
use std::rt::Runtime;
use std::test::Fail;
use tape_core::Recording;
use tape_seek::{Edit, EditFault, LineFault, Refused, Request, Session, read_line};
use tape_tests::once_more::{bytes, read};

/// All that a session tells of itself, the recording by its numbers and a checksum.
#[derive(Clone, Copy, Debug, PartialEq, Eq)]
struct State {
    recording: (usize, u64, u64, u64),
    log: usize,
    marks: (usize, usize, usize),
}

/// Chunks, bytes, length, and a sum over every delay and byte by its place.
fn numbers(recording: &Recording) -> (usize, u64, u64, u64) {
    let mut sum: u64 = 0;
    for byte in recording.header() {
        sum = sum.wrapping_mul(31).wrapping_add(u64::from(*byte));
    }
    for chunk in recording.chunks() {
        sum = sum.wrapping_mul(31).wrapping_add(chunk.delay);
        for byte in chunk.bytes.as_slice() {
            sum = sum.wrapping_mul(31).wrapping_add(u64::from(*byte));
        }
    }
    let chunks = recording.chunks().len();
    (chunks, recording.body_len(), recording.length(), sum)
}

fn told_by(session: &Session) -> State {
    State {
        recording: numbers(session.recording()),
        log: session.log().len(),
        marks: (session.frontier(), session.head(), session.held()),
    }
}

/// Opens a session with a terminal stored at every second count; where memory is refused, once more.
fn opened(rt: &(impl Runtime<A = Global> + Abort), recording: Recording) -> Result<Session, Fail> {
    let before = numbers(&recording);
    let session = match Session::open(rt.alloc(), recording, 2) {
        Ok(session) => session,
        Err(back) => opened_again(rt, back, before)?,
    };
    let after = (numbers(session.recording()), session.log().len());
    assert_eq!(rt; after, (before, 0));
    Ok(session)
}

/// Opens a session over the recording that came back.
fn opened_again(
    rt: &(impl Runtime<A = Global> + Abort),
    back: Recording,
    before: (usize, u64, u64, u64),
) -> Result<Session, Fail> {
    println!(rt; "refused: open")?;
    assert_eq!(rt; numbers(&back), before);
    Ok(Session::open(rt.alloc(), back, 2)?)
}

/// Four chunks, a second apart, that report the cursor's place, what the terminal is, the place again, and nothing.
fn four(rt: &(impl Runtime<A = Global> + Abort)) -> Result<Session, Fail> {
    let script = b"\n\x1b[6n\x1b[cabc\x1b[6nd";
    opened(rt, read(rt, script, b"1 4\n1 3\n1 7\n1 1\n")?)
}

/// Whether a seek goes to a count, and all was sent that the chunks up to it ask for.
fn reaches(session: &mut Session, count: usize) -> bool {
    if count > session.recording().chunks().len() {
        return false;
    }
    let wanted: &[u8] = match count {
        0 => b"",
        1 => b"\x1b[1;1R",
        2 => b"\x1b[1;1R\x1b[?1;2c",
        _ => b"\x1b[1;1R\x1b[?1;2c\x1b[1;4R",
    };
    match session.seek_count(count) {
        Ok(view) => view.count() == count && view.reports() == wanted,
        Err(_) => false,
    }
}

/// Goes to a count; where memory is refused, the head is back at the given count and all else as before, and so once more.
fn sought(
    rt: &(impl Runtime<A = Global> + Abort),
    session: &mut Session,
    count: usize,
    head: usize,
) -> Result<(), Fail> {
    let before = told_by(session);
    assert!(rt;
        count <= session.recording().chunks().len(),
        "a seek to {count}"
    );
    if session.seek_count(count).is_err() {
        println!(rt; "refused: a seek to {count}")?;
        let (frontier, _, held) = before.marks;
        assert!(rt; count > frontier, "a seek below the frontier takes memory");
        let marks = (frontier, head, held);
        assert_eq!(rt; told_by(session), State { marks, ..before });
    }
    assert!(rt; reaches(session, count), "a seek to {count}");
    Ok(())
}

/// Seeks to these counts, each with where a refusal puts the head. They end at the end.
fn all_sought(
    rt: &(impl Runtime<A = Global> + Abort),
    session: &mut Session,
    counts: &[(usize, usize)],
) -> Result<(), Fail> {
    for (count, head) in counts {
        sought(rt, session, *count, *head)?;
    }
    assert_eq!(rt; told_by(session).marks, (4, 4, 3));
    Ok(())
}

/// Grows so many times for nothing, refused or not.
fn grow_before(rt: &impl Runtime<A = Global>, growths: usize) {
    for _ in 0..growths {
        let _: Result<Vec<u8>, AllocError> = Vec::with_capacity(rt.alloc(), 1);
    }
}

/// Opens a session and seeks to the counts, behind so many growths: where one is refused, it is one as much earlier of
/// these seeks. So a single run of these tests meets each of their growths.
fn check_seeks(
    rt: &(impl Runtime<A = Global> + Abort),
    growths: usize,
    counts: &[(usize, usize)],
) -> Result<(), Fail> {
    grow_before(rt, growths);
    let mut session = four(rt)?;
    all_sought(rt, &mut session, counts)
}

/// Below the frontier, which the second reaches, no growth is left to be refused.
const TO_AND_FRO: &[(usize, usize)] = &[(1, 0), (4, 0), (3, 0), (0, 0), (2, 0), (1, 0), (4, 0)];

/// At the last the head stands at 1, and a refusal puts it at the last stored terminal.
const PAST_A_STORED_TERMINAL: &[(usize, usize)] = &[(3, 0), (1, 0), (4, 2)];

#[test]
fn refused_seeks(rt: HostRuntime) -> Result<(), Fail> {
    check_seeks(&rt, 0, TO_AND_FRO)
}

#[test]
fn refused_seeks_behind_a_growth(rt: HostRuntime) -> Result<(), Fail> {
    check_seeks(&rt, 1, TO_AND_FRO)
}

#[test]
fn refused_seeks_behind_two_growths(rt: HostRuntime) -> Result<(), Fail> {
    check_seeks(&rt, 2, TO_AND_FRO)
}

#[test]
fn refused_seeks_behind_three_growths(rt: HostRuntime) -> Result<(), Fail> {
    check_seeks(&rt, 3, TO_AND_FRO)
}

#[test]
fn refused_seeks_behind_four_growths(rt: HostRuntime) -> Result<(), Fail> {
    check_seeks(&rt, 4, TO_AND_FRO)
}

#[test]
fn refused_seeks_behind_five_growths(rt: HostRuntime) -> Result<(), Fail> {
    check_seeks(&rt, 5, TO_AND_FRO)
}

#[test]
fn refused_seeks_behind_six_growths(rt: HostRuntime) -> Result<(), Fail> {
    check_seeks(&rt, 6, TO_AND_FRO)
}

#[test]
fn refused_seeks_past_a_stored_terminal(rt: HostRuntime) -> Result<(), Fail> {
    check_seeks(&rt, 0, PAST_A_STORED_TERMINAL)
}

#[test]
fn refused_seeks_past_a_stored_terminal_behind_a_growth(rt: HostRuntime) -> Result<(), Fail> {
    check_seeks(&rt, 1, PAST_A_STORED_TERMINAL)
}

#[test]
fn refused_seeks_past_a_stored_terminal_behind_two_growths(rt: HostRuntime) -> Result<(), Fail> {
    check_seeks(&rt, 2, PAST_A_STORED_TERMINAL)
}

#[test]
fn refused_seeks_past_a_stored_terminal_behind_three_growths(rt: HostRuntime) -> Result<(), Fail> {
    check_seeks(&rt, 3, PAST_A_STORED_TERMINAL)
}

#[test]
fn refused_seeks_past_a_stored_terminal_behind_four_growths(rt: HostRuntime) -> Result<(), Fail> {
    check_seeks(&rt, 4, PAST_A_STORED_TERMINAL)
}

#[test]
fn refused_seeks_past_a_stored_terminal_behind_five_growths(rt: HostRuntime) -> Result<(), Fail> {
    check_seeks(&rt, 5, PAST_A_STORED_TERMINAL)
}

#[test]
fn refused_seeks_past_a_stored_terminal_behind_six_growths(rt: HostRuntime) -> Result<(), Fail> {
    check_seeks(&rt, 6, PAST_A_STORED_TERMINAL)
}

/// Makes an edit; where memory is refused, once more with the edit that came back.
fn applied(
    rt: &(impl Runtime<A = Global> + Abort),
    session: &mut Session,
    edit: Edit,
) -> Result<(), Fail> {
    let before = told_by(session);
    if let Err(refused) = session.apply(edit) {
        applied_again(rt, session, refused, before)?;
    }
    assert_eq!(rt; session.log().len(), before.log.saturating_add(1));
    Ok(())
}

/// Makes the edit that came back, of which nothing is left.
fn applied_again(
    rt: &(impl Runtime<A = Global> + Abort),
    session: &mut Session,
    refused: Refused,
    before: State,
) -> Result<(), Fail> {
    println!(rt; "refused: {:?}", refused.edit)?;
    let after = (refused.fault, told_by(session));
    assert_eq!(rt; after, (EditFault::OutOfMemory, before));
    Ok(session.apply(refused.edit)?)
}

/// Makes an edit of each kind.
fn all_applied(rt: &(impl Runtime<A = Global> + Abort), session: &mut Session) -> Result<(), Fail> {
    let edit = Edit::Insert {
        at: 4,
        delay: 7,
        bytes: bytes(rt, b"new")?,
    };
    applied(rt, session, edit)?;
    let edit = Edit::Replace {
        at: 3,
        bytes: bytes(rt, b"other")?,
    };
    applied(rt, session, edit)?;
    applied(rt, session, Edit::Retime { at: 0, delay: 9 })?;
    applied(rt, session, Edit::Cap { max: 500_000 })?;
    applied(rt, session, Edit::Delete { from: 1, to: 2 })
}

/// The numbers of the recording that those edits leave.
fn numbers_left(rt: &impl Runtime<A = Global>) -> Result<(usize, u64, u64, u64), Fail> {
    let left = read(
        rt,
        b"\n\x1b[6nabc\x1b[6nothernew",
        b"0.000009 4\n0.5 7\n0.5 5\n0.000007 3\n",
    )?;
    Ok(numbers(&left))
}

/// Makes the edits behind a seek, and compares what they leave.
fn check_edits(rt: &(impl Runtime<A = Global> + Abort), session: &mut Session) -> Result<(), Fail> {
    sought(rt, session, 4, 0)?;
    all_applied(rt, session)?;
    let wanted = numbers_left(rt)?;
    let left = told_by(session);
    assert_eq!(rt; (left.marks, left.recording), ((1, 0, 1), wanted));
    Ok(())
}

#[test]
fn refused_edits(rt: HostRuntime) -> Result<(), Fail> {
    let mut session = four(&rt)?;
    check_edits(&rt, &mut session)
}

/// Lets a log grow again and again.
fn check_growths_of_the_log(
    rt: &(impl Runtime<A = Global> + Abort),
    session: &mut Session,
) -> Result<(), Fail> {
    for delay in 0..9 {
        applied(rt, session, Edit::Retime { at: 3, delay })?;
    }
    assert_eq!(rt; session.recording().length(), 3_000_008);
    Ok(())
}

#[test]
fn refused_growths_of_the_log(rt: HostRuntime) -> Result<(), Fail> {
    let mut session = four(&rt)?;
    check_growths_of_the_log(&rt, &mut session)
}

/// Lines, and two numbers of the edit that each asks for: place and size, or the ends of the range.
const LINES: &[(&[u8], (usize, usize))] = &[
    (b"insert 1 0.25 58", (1, 1)),
    (b"replace 007 4A4b", (7, 2)),
    (b"insert 0 1 -", (0, 0)),
    (b"delete 0 1", (0, 1)),
];

fn numbers_of(asked: &Request) -> Option<(usize, usize)> {
    match asked {
        Request::Edit(Edit::Insert { at, bytes, .. }) => Some((*at, bytes.len())),
        Request::Edit(Edit::Replace { at, bytes }) => Some((*at, bytes.len())),
        Request::Edit(Edit::Delete { from, to }) => Some((*from, *to)),
        _ => None,
    }
}

/// Reads a line; where memory is refused, once more.
fn read_numbers(
    rt: &(impl Runtime<A = Global> + Abort),
    line: &[u8],
) -> Result<Option<(usize, usize)>, Fail> {
    match read_line(rt.alloc(), line) {
        Ok(asked) => Ok(numbers_of(&asked)),
        Err(fault) => {
            println!(rt; "refused: {line:?}")?;
            assert_eq!(rt; fault, LineFault::OutOfMemory);
            Ok(numbers_of(&read_line(rt.alloc(), line)?))
        }
    }
}

#[test]
fn refused_lines(rt: HostRuntime) -> Result<(), Fail> {
    for (line, wanted) in LINES {
        assert_eq!(rt; read_numbers(&rt, line)?, Some(*wanted), "of {line:?}");
    }
    Ok(())
}
