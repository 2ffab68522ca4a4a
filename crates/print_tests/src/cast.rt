//! The cast.

use screen_cast::cast;
use std::alloc::Global;
use std::process::Abort;
use std::rt::Runtime;
use std::test::Fail;
use tape_core::Watched;
use tape_seek::Session;
use tape_tests::once_more::read;

/// The first line, and then nothing.
const NO_EVENTS: &str = "{\"version\": 2, \"width\": 80, \"height\": 24}\n";

/// Chunks divided by bars, each a second after the one before, and what the cast ends with.
const ROWS: [(&[u8], &str); 10] = [
    // A text, with the first line before it.
    (
        b"ab",
        "{\"version\": 2, \"width\": 80, \"height\": 24}\n\
[1.000000, \"o\", \"\\u001b[1;1H\\u001b[0m\\u001b[2K\\u001b[0mab\\u001b[0m\\u001b[1;3H\"]\n",
    ),
    // The cursor alone.
    (
        b"\x1b[5;7H",
        "{\"version\": 2, \"width\": 80, \"height\": 24}\n[1.000000, \"o\", \"\\u001b[5;7H\"]\n",
    ),
    // A chunk that changes nothing.
    (
        b"\n|\x07|\x1b[K|\n",
        "{\"version\": 2, \"width\": 80, \"height\": 24}\n\
[1.000000, \"o\", \"\\u001b[2;1H\"]\n[4.000000, \"o\", \"\\u001b[3;1H\"]\n",
    ),
    // A rendition, and what stands behind a backslash.
    (
        b"\x1b[1;4;5;7m\"\\\x1b[0;5m/",
        "\\u001b[2K\\u001b[0;1;4;5;7m\\\"\\\\\\u001b[0;5m/\\u001b[0m\\u001b[1;4H\"]\n",
    ),
    // A run ends where line drawing begins.
    (
        b"x\x1b(0q",
        "\\u001b[2K\\u001b[0mx\\u001b[0m\u{2500}\\u001b[0m\\u001b[1;3H\"]\n",
    ),
    // A space behind each character of a line of double width, and its cursor.
    (
        b"\r\n\x1b#6ab",
        "\"\\u001b[2;1H\\u001b[0m\\u001b[2K\\u001b[0ma b \\u001b[0m\\u001b[2;5H\"]\n",
    ),
    // A reversed screen: reverse is turned round, and the ground goes on to the last column.
    (
        b"\x1b[?5h|a\x1b[7mb",
        "[2.000000, \"o\", \"\\u001b[1;1H\\u001b[0m\\u001b[2K\\u001b[0;7ma\\u001b[0mb\\u001b[0;7m\
\x20                                                                             \
\\u001b[0m\\u001b[1;3H\"]\n",
    ),
    // The same of double width, with a line that is full.
    (
        b"\x1b[?5h\x1b#6|\x1b[38Cab",
        "a b \\u001b[0;7m\\u001b[0m\\u001b[1;79H\"]\n",
    ),
    // The columns differ: every row is drawn.
    (
        b"\x1b[?3h",
        "[1.000000, \"r\", \"132x24\"]\n[1.000000, \"o\", \"\
\\u001b[1;1H\\u001b[0m\\u001b[2K\\u001b[0m\\u001b[2;1H\\u001b[0m\\u001b[2K\\u001b[0m\
\\u001b[3;1H\\u001b[0m\\u001b[2K\\u001b[0m\\u001b[4;1H\\u001b[0m\\u001b[2K\\u001b[0m\
\\u001b[5;1H\\u001b[0m\\u001b[2K\\u001b[0m\\u001b[6;1H\\u001b[0m\\u001b[2K\\u001b[0m\
\\u001b[7;1H\\u001b[0m\\u001b[2K\\u001b[0m\\u001b[8;1H\\u001b[0m\\u001b[2K\\u001b[0m\
\\u001b[9;1H\\u001b[0m\\u001b[2K\\u001b[0m\\u001b[10;1H\\u001b[0m\\u001b[2K\\u001b[0m\
\\u001b[11;1H\\u001b[0m\\u001b[2K\\u001b[0m\\u001b[12;1H\\u001b[0m\\u001b[2K\\u001b[0m\
\\u001b[13;1H\\u001b[0m\\u001b[2K\\u001b[0m\\u001b[14;1H\\u001b[0m\\u001b[2K\\u001b[0m\
\\u001b[15;1H\\u001b[0m\\u001b[2K\\u001b[0m\\u001b[16;1H\\u001b[0m\\u001b[2K\\u001b[0m\
\\u001b[17;1H\\u001b[0m\\u001b[2K\\u001b[0m\\u001b[18;1H\\u001b[0m\\u001b[2K\\u001b[0m\
\\u001b[19;1H\\u001b[0m\\u001b[2K\\u001b[0m\\u001b[20;1H\\u001b[0m\\u001b[2K\\u001b[0m\
\\u001b[21;1H\\u001b[0m\\u001b[2K\\u001b[0m\\u001b[22;1H\\u001b[0m\\u001b[2K\\u001b[0m\
\\u001b[23;1H\\u001b[0m\\u001b[2K\\u001b[0m\\u001b[24;1H\\u001b[0m\\u001b[2K\\u001b[0m\
\\u001b[1;1H\"]\n",
    ),
    // They come back.
    (
        b"\x1b[?3h|\x1b[?3l|x",
        "\\u001b[1;1H\"]\n\
[3.000000, \"o\", \"\\u001b[1;1H\\u001b[0m\\u001b[2K\\u001b[0mx\\u001b[0m\\u001b[1;2H\"]\n",
    ),
];

/// The cast of chunks.
fn cast_of(rt: &(impl Runtime<A = Global> + Abort), chunks: &[u8]) -> Result<Vec<u8>, Fail> {
    let alloc = rt.alloc();
    let mut script = vec![in alloc; b'\n']?;
    let mut timing = String::new(alloc);
    for chunk in chunks.split(|byte| *byte == b'|') {
        script.extend_from_slice(chunk)?;
        timing.push_str(format!(in alloc; "1 {}\n", chunk.len())?.as_str())?;
    }
    let recording = read(rt, script.as_slice(), timing.as_bytes())?;
    let mut session = Session::open(alloc, recording, 1)?;
    let mut writer = Watched::new(Vec::new(alloc));
    assert_eq!(rt; cast(alloc, &mut session, &mut writer), Ok(()));
    Ok(writer.into_inner())
}

#[test]
fn tells_what_each_chunk_draws(rt: HostRuntime) -> Result<(), Fail> {
    for (chunks, text) in &ROWS {
        let got = cast_of(&rt, chunks)?;
        let end = got.len().saturating_sub(text.len());
        assert_eq!(&rt; &got.as_slice()[end..], text.as_bytes());
    }
    Ok(())
}

#[test]
fn no_chunks_are_no_events(rt: HostRuntime) -> Result<(), Fail> {
    let recording = read(&rt, b"\n", b"")?;
    let mut session = Session::open(rt.alloc(), recording, 1)?;
    let mut writer = Watched::new(Vec::new(rt.alloc()));
    assert_eq!(&rt; cast(rt.alloc(), &mut session, &mut writer), Ok(()));
    assert_eq!(&rt; writer.into_inner().as_slice(), NO_EVENTS.as_bytes());
    Ok(())
}
