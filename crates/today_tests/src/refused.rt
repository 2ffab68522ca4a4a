//! Refused growths. `tests/refused.py` runs these with the first, second, .. growth of memory refused, until none is, and
//! counts the lines `refused: WHAT`. After a refusal all has gone out, or a beginning, and the same call then answers.

use std::alloc::Global;
use std::process::Abort;
use std::rt::{HostRuntime, Runtime};
use std::test::Fail;
use tape_core::Watched;
use tape_tests::once_more::read;
use xterm_print::{find, open};
use xterm_term::Size;

/// Chunks without delays on 12 columns and 3 lines: the text comes; it goes, comes and goes, and comes; it goes beside a
/// report; marks fill a row and are erased before it comes, and before it comes and goes.
const SCRIPT: &[u8] = b"\nxerr\
\r\x1b[Kerr\r\x1b[K  err\
\x1b[6n\x1b[2J\
\x1b[1;1He\xcc\x81e\xcc\x81e\xcc\x81e\xcc\x81e\xcc\x81e\xcc\x81\
e\xcc\x81e\xcc\x81e\xcc\x81e\xcc\x81e\xcc\x81e\xcc\x81\x1b[2J\x1b[2;1Herr\
\x1b[1;1He\xcc\x81e\xcc\x81e\xcc\x81e\xcc\x81e\xcc\x81e\xcc\x81\
e\xcc\x81e\xcc\x81e\xcc\x81e\xcc\x81e\xcc\x81e\xcc\x81\x1b[2J\x1b[3;2Herr\r\x1b[K";

const TIMING: &[u8] = b"0 4\n0 16\n0 8\n0 55\n0 59\n";

const TEXT: &[char] = &['e', 'r', 'r'];

const LINES: &[u8] = b"+ 0 0.000000 1 2 xerr
- 1 0.000000 1 2 xerr
~ 1 0.000000 1 1 err
+ 1 0.000000 1 3   err
- 2 0.000000 1 3   err
+ 3 0.000000 2 1 err
- 4 0.000000 2 1 err
~ 4 0.000000 3 2  err
";

/// Room for all lines.
fn room(alloc: Global) -> Result<Vec<u8>, Fail> {
    match Vec::with_capacity(alloc, 300) {
        Ok(room) => Ok(room),
        Err(_) => Ok(Vec::with_capacity(alloc, 300)?),
    }
}

/// Whether a text is a beginning of the lines, each of them whole.
fn is_beginning(text: &[u8]) -> bool {
    LINES.starts_with(text) && (text.is_empty() || text.ends_with(b"\n"))
}

/// Whether one of the next growths is refused.
fn is_to_come(rt: &impl Runtime<A = Global>) -> bool {
    for _ in 0..100 {
        if Vec::<u8>::with_capacity(rt.alloc(), 1).is_err() {
            return true;
        }
    }
    false
}

/// All lines go out where memory is refused while a chunk is played ahead, too.
#[test]
fn find_lines(rt: HostRuntime) -> Result<(), Fail> {
    let alloc = rt.alloc();
    let recording = read(&rt, SCRIPT, TIMING)?;
    let size = Size::new(12, 3).ok_or("no size")?;
    let mut session = match open(alloc, recording, 1, size) {
        Ok(session) => session,
        Err(back) => {
            println!(&rt; "refused: open")?;
            open(alloc, back, 1, size)?
        }
    };
    let mut writer = Watched::new(room(alloc)?);
    if find(alloc, &mut session, None, 0, TEXT, &mut writer).is_ok() {
        assert_eq!(&rt; writer.into_inner().as_slice(), LINES);
        // Where no refusal is still to come one came before, and all lines went out in spite of it.
        if !is_to_come(&rt) {
            println!(&rt; "refused: all lines went out")?;
        }
        return Ok(());
    }
    println!(&rt; "refused: find")?;
    let begun = writer.into_inner();
    assert!(&rt; is_beginning(begun.as_slice()), "{begun:?} went out");
    let mut writer = Watched::new(room(alloc)?);
    find(alloc, &mut session, None, 0, TEXT, &mut writer)?;
    assert_eq!(&rt; writer.into_inner().as_slice(), LINES);
    Ok(())
}
