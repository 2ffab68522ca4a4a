//! Refused growths. `tests/refused.py` runs these with the first, second, .. growth of memory refused, until none is, and
//! counts the lines `refused: WHAT`. After a refusal nothing has gone out, and the same call then answers.
use std::alloc::Global;
use std::process::Abort;
use std::rt::Runtime;
use std::test::Fail;
use tape_check::{CheckFault, PlayedAs, write_check};
use tape_core::{Recording, Watched};
use tape_tests::once_more::read;
use vt_term::Profile;

/// Unplayed sequences, more than fit where the first ones are counted.
const SCRIPT: &[u8] =
    b"Script started on X\n\x1bN\x1bO\x1b[Q\x1b[d\x1b[e\x1b[X\x1b[S\x1b[T\x1b[6h\x1b[10h\x1b%G\x1bN";

const TIMING: &[u8] = b"0 36\n";

const LINES: &str = "started X
unplayed 1 ESC % G
unplayed 2 ESC N
unplayed 1 ESC O
unplayed 1 ESC [ 10 h
unplayed 1 ESC [ 6 h
unplayed 1 ESC [ Q
unplayed 1 ESC [ S
unplayed 1 ESC [ T
unplayed 1 ESC [ X
unplayed 1 ESC [ d
unplayed 1 ESC [ e
try --profile xterm
";

/// Room for all lines; where memory is refused, once more.
fn room(rt: &impl Runtime<A = Global>) -> Result<Vec<u8>, Fail> {
    match Vec::with_capacity(rt.alloc(), 300) {
        Ok(room) => Ok(room),
        Err(_) => {
            println!(rt; "refused: room for a writer")?;
            Ok(Vec::with_capacity(rt.alloc(), 300)?)
        }
    }
}

/// Checks a recording: what was answered, and what went out.
fn checked(
    rt: &(impl Runtime<A = Global> + Abort),
    recording: &Recording,
) -> Result<(Result<bool, CheckFault>, Vec<u8>), Fail> {
    let mut writer = Watched::new(room(rt)?);
    let answer = write_check(
        rt.alloc(),
        recording,
        PlayedAs::Vt(Profile::Vt100),
        0,
        &mut writer,
    );
    assert!(rt; !writer.failed());
    Ok((answer, writer.into_inner()))
}

#[test]
fn check_lines(rt: HostRuntime) -> Result<(), Fail> {
    let recording = read(&rt, SCRIPT, TIMING)?;
    let (mut answer, mut lines) = checked(&rt, &recording)?;
    if answer == Err(CheckFault::Memory) {
        println!(rt; "refused: a check")?;
        assert_eq!(rt; lines.len(), 0);
        (answer, lines) = checked(&rt, &recording)?;
    }
    assert_eq!(&rt; (answer, lines.as_slice()), (Ok(true), LINES.as_bytes()));
    Ok(())
}
