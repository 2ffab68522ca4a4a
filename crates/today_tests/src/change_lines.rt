//! Change lines of the terminal of today.

use std::alloc::Global;
use std::process::Abort;
use std::rt::{HostRuntime, Runtime};
use std::test::Fail;
use tape_core::Watched;
use tape_tests::once_more::read;
use xterm_print::{changes, open};
use xterm_term::Size;

/// Chunks on 20 columns and 3 lines, each half a second behind the one before it, and their change lines.
const CHUNKS: [(&[u8], &str); 12] = [
    (b"abc", "0 0.500000 1\n"),
    // The same cells again, and one that differs.
    (b"\rabc", ""),
    (b"\rabd", "2 1.500000 1\n"),
    // The last columns.
    (b"\x1b[1;19Hx", "3 2.000000 1\n"),
    (b"\x1b[1;19H\x1b[K", "4 2.500000 1\n"),
    (b"\x1b[2;20Hz", "5 3.000000 2\n"),
    // Line 2 moves up, and leaves a blank one, as line 3 was.
    (b"\x1b[3;20H\n", "6 3.500000 1 2\n"),
    // The screen is erased, and then again.
    (b"\x1b[2J", "7 4.000000 1\n"),
    (b"\x1b[2J", ""),
    // It is erased in a colour, in another one, and in none.
    (b"\x1b[41m\x1b[2;1H\x1b[K", "9 5.000000 2\n"),
    (b"\x1b[42m\x1b[K", "10 5.500000 2\n"),
    (b"\x1b[m\x1b[K", "11 6.000000 2\n"),
];

/// The change lines of chunks, each half a second behind the one before it.
fn changed<'a>(
    rt: &(impl Runtime<A = Global> + Abort),
    columns: u16,
    lines: u16,
    chunks: &[&'a [u8]],
) -> Result<Vec<u8>, Fail> {
    let alloc = rt.alloc();
    let mut script = vec![in alloc; b'\n']?;
    let mut timing = String::new(alloc);
    for chunk in chunks {
        script.extend_from_slice(chunk)?;
        timing.push_str(format!(in alloc; "0.5 {}\n", chunk.len())?.as_str())?;
    }
    let recording = read(rt, script.as_slice(), timing.as_bytes())?;
    let size = Size::new(columns, lines).ok_or("no size")?;
    let mut session = open(alloc, recording, 1, size)?;
    let mut writer = Watched::new(Vec::new(alloc));
    let answer = changes(alloc, &mut session, None, 99_000_000, &mut writer);
    assert_eq!(rt; answer, Ok(()));
    Ok(writer.into_inner())
}

#[test]
fn tells_the_lines_that_each_chunk_changes(rt: HostRuntime) -> Result<(), Fail> {
    let alloc = rt.alloc();
    let mut chunks = Vec::new(alloc);
    let mut lines = String::new(alloc);
    for (chunk, line) in CHUNKS {
        chunks.push(chunk)?;
        lines.push_str(line)?;
    }
    let got = changed(&rt, 20, 3, chunks.as_slice())?;
    assert_eq!(&rt; got.as_slice(), lines.as_bytes());
    Ok(())
}

#[test]
fn tells_of_many_lines(rt: HostRuntime) -> Result<(), Fail> {
    // The screen is filled with the letter E.
    let got = changed(&rt, 9, 120, &[b"\x1b#8"])?;
    let mut line = String::from_str(rt.alloc(), "0 0.500000")?;
    for number in 1..121 {
        line.push_str(format!(in rt.alloc(); " {number}")?.as_str())?;
    }
    line.push_str("\n")?;
    assert_eq!(&rt; got.as_slice(), line.as_bytes());
    Ok(())
}
