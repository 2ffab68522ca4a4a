//! Refused growths. `tests/refused.py` runs these with the first, second, .. growth of memory refused, until none is, and
//! counts the lines `refused: WHAT`. After a refusal all is as it must be, and the same call then answers.
use screen_print::{ChangesFault, changes};
use std::alloc::Global;
use std::process::Abort;
use std::rt::Runtime;
use std::test::Fail;
use tape_core::Watched;
use tape_seek::Session;
use tape_tests::once_more::read;

mod standing;

/// Three chunks, half a second apart, on lines 1, 3 and 1, and the first two with reports.
const SCRIPT: &[u8] = b"\nab\x1b[6n\x1b[3;1Hcd\x1b[c\x1b[1;1He";

const TIMING: &[u8] = b"0.5 6\n0.5 11\n0.5 7\n";

const LINES: &[u8] = b"0 0.500000 1\n1 1.000000 3\n2 1.500000 1\n";

/// Opens a session with a terminal stored at each count; where memory is refused, once more.
fn opened(rt: &impl Runtime<A = Global>) -> Result<Session, Fail> {
    match Session::open(rt.alloc(), read(rt, SCRIPT, TIMING)?, 1) {
        Ok(session) => Ok(session),
        Err(back) => {
            println!(rt; "refused: open")?;
            Ok(Session::open(rt.alloc(), back, 1)?)
        }
    }
}

/// Room for all lines; where memory is refused, once more.
fn room(rt: &impl Runtime<A = Global>) -> Result<Vec<u8>, Fail> {
    match Vec::with_capacity(rt.alloc(), 100) {
        Ok(room) => Ok(room),
        Err(_) => {
            println!(rt; "refused: room for a writer")?;
            Ok(Vec::with_capacity(rt.alloc(), 100)?)
        }
    }
}

/// Whether a text is a beginning of the lines, and not all of them.
fn is_beginning(text: &[u8]) -> bool {
    LINES.starts_with(text) && text.len() < LINES.len()
}

/// Writes the change lines, or a beginning of them where memory is refused.
fn check_first_changes(
    rt: &(impl Runtime<A = Global> + Abort),
    session: &mut Session,
) -> Result<(), Fail> {
    let mut writer = Watched::new(room(rt)?);
    match changes(session, None, 9_000_000, &mut writer) {
        Ok(()) => assert_eq!(rt; writer.into_inner().as_slice(), LINES),
        Err(fault) => {
            println!(rt; "refused: changes")?;
            assert_eq!(rt; (fault, writer.failed()), (ChangesFault::Memory, false));
            let begun = writer.into_inner();
            assert!(rt; is_beginning(begun.as_slice()), "{begun:?} went out");
            let kept = (session.log().len(), session.recording().chunks().len());
            assert_eq!(rt; kept, (0, 3));
        }
    }
    Ok(())
}

/// Writes all change lines. What was sought stays sought, so only the rest needs memory.
fn check_all_changes(
    rt: &(impl Runtime<A = Global> + Abort),
    session: &mut Session,
) -> Result<(), Fail> {
    let mut writer = Watched::new(room(rt)?);
    changes(session, None, 9_000_000, &mut writer)?;
    assert_eq!(rt; writer.into_inner().as_slice(), LINES);
    assert_eq!(rt; (session.frontier(), session.held()), (3, 4));
    Ok(())
}

#[test]
fn change_lines(rt: HostRuntime) -> Result<(), Fail> {
    let mut session = opened(&rt)?;
    check_first_changes(&rt, &mut session)?;
    check_all_changes(&rt, &mut session)
}
