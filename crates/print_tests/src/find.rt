//! Find lines.

use screen_print::find;
use std::alloc::Global;
use std::process::Abort;
use std::rt::Runtime;
use std::test::Fail;
use tape_core::Watched;
use tape_seek::Session;
use tape_tests::once_more::read;

/// Chunks without delays, divided by bars, a text, and its find lines.
const ROWS: [(&[u8], &str, &str); 33] = [
    // The screen is erased.
    (
        b"ab\r\nab|\x1b[2J",
        "ab",
        "+ 0 0.000000 1 1 ab\n+ 0 0.000000 2 1 ab\n- 1 0.000000 1 1 ab\n- 1 0.000000 2 1 ab\n",
    ),
    // A line that scrolls stays.
    (b"\x1b[24;1Herr|\r\n|x", "err", "+ 0 0.000000 24 1 err\n"),
    // Text to the right changes nothing.
    (b"er|r|or", "err", "+ 1 0.000000 1 1 err\n"),
    // The second of two equal lines.
    (
        b"err|\r\nerr",
        "err",
        "+ 0 0.000000 1 1 err\n+ 1 0.000000 2 1 err\n",
    ),
    // A text runs on over the margin.
    (
        b"xxxxxxxxxxxxxxxxxxxxxxxxxxxxxxxxxxxxxxxxxxxxxxxxxxxxxxxxxxxxxxxxxxxxxxxxxxxxxxabc",
        "abc",
        "+ 0 0.000000 1 79 xxxxxxxxxxxxxxxxxxxxxxxxxxxxxxxxxxxxxxxxxxxxxxxxxxxxxxxxxxxxxxxxxxxxxxxxxxxxxxabc\n",
    ),
    // Overlapping places.
    (b"aaa", "aa", "+ 0 0.000000 1 1 aaa\n+ 0 0.000000 1 2 aaa\n"),
    // Line drawing.
    (b"\x1b(0q", "\u{2500}", "+ 0 0.000000 1 1 \u{2500}\n"),
    // Text that is written over.
    (b"a|\rb", "a", "+ 0 0.000000 1 1 a\n- 1 0.000000 1 1 a\n"),
    // A line that runs on scrolls.
    (
        b"xxxxxxxxxxxxxxxxxxxxxxxxxxxxxxxxxxxxxxxxxxxxxxxxxxxxxxxxxxxxxxxxxxxxxxxxxxxxxxxxerr|\x1b[24;1H\n",
        "err",
        "+ 0 0.000000 2 1 err\n",
    ),
    // It scrolls away.
    (
        b"a\n\n\n\n\n\n\n\n\n\n\n\n\n\n\n\n\n\n\n\n\n\n\n\n\n\n\n\n\n\n",
        "a",
        "~ 0 0.000000 1 1 a\n",
    ),
    // It is written over.
    (b"err\rok ", "err", "~ 0 0.000000 1 1 err\n"),
    // It is written again.
    (b"err|\rerr", "err", "+ 0 0.000000 1 1 err\n"),
    // It is erased and written again: it stands at the end.
    (b"err\r\x1b[Kerr", "err", "+ 0 0.000000 1 1 err\n"),
    // It comes to stand over a border of chunks.
    (b"rm |-rf\x1b[2J", "rm -rf", "~ 1 0.000000 1 1 rm -rf\n"),
    // It stands nowhere.
    (b"x", "y", ""),
    // Another left part.
    (
        b"err\r\x1b[@xerr|z",
        "err",
        "~ 0 0.000000 1 1 err\n+ 0 0.000000 1 2 xerr\n",
    ),
    (
        b"a|\x1b[2J",
        "a",
        "+ 0 0.000000 1 1 a\n- 1 0.000000 1 1 a\n",
    ),
    (
        b"a|\x1b[2J\x1b[5;5Ha",
        "a",
        "+ 0 0.000000 1 1 a\n- 1 0.000000 1 1 a\n+ 1 0.000000 5 5     a\n",
    ),
    (
        b"ab\rx\rab\rx",
        "ab",
        "~ 0 0.000000 1 1 ab\n~ 0 0.000000 1 1 ab\n",
    ),
    (b"\x1b[6n\x1b[c\x1bZa", "a", "+ 0 0.000000 1 1 a\n"),
    // A screen full of E.
    (
        b"\x1b#8\x1b[1;3Hx",
        "EEx",
        "+ 0 0.000000 1 1 EExEEEEEEEEEEEEEEEEEEEEEEEEEEEEEEEEEEEEEEEEEEEEEEEEEEEEEEEEEEEEEEEEEEEEEEEEEEEEE\n",
    ),
    // Other character sets.
    (
        b"\x1b(0kl",
        "\u{2510}\u{250c}",
        "+ 0 0.000000 1 1 \u{2510}\u{250c}\n",
    ),
    (
        b"\x1b(A##",
        "\u{a3}\u{a3}",
        "+ 0 0.000000 1 1 \u{a3}\u{a3}\n",
    ),
    // The error character.
    (
        b"a\x80\x80",
        "\u{2592}\u{2592}",
        "+ 0 0.000000 1 2 a\u{2592}\u{2592}\n",
    ),
    // It comes and goes in a later chunk.
    (b"abc|\rwh\rxx", "wh", "~ 1 0.000000 1 1 whc\n"),
    // Written from right to left.
    (b"x|\x1b[1;2Hh\rw", "wh", "+ 1 0.000000 1 1 wh\n"),
    // Over the margin, in two chunks.
    (
        b"\x1b[1;80Hw|h",
        "wh",
        "+ 1 0.000000 1 80                                                                                wh\n",
    ),
    // Rows that come to stand side by side.
    (
        b"\x1b[1;80Hw\x1b[3;1Hh|\x1b[2;24r\x1b[24;1H\n",
        "wh",
        "+ 1 0.000000 1 80                                                                                wh\n",
    ),
    // A line of another size ends at column 40.
    (
        b"\x1b[1;40Hwi\x1b[2;1Hh|\x1b[1;1H\x1b#6",
        "wh",
        "+ 1 0.000000 1 40                                        wh\n",
    ),
    // Of equal places the last one goes, also where another line changed.
    (
        b"x\r\nx\r\nx|\x1b[1;1H\x1b[K",
        "x",
        "+ 0 0.000000 1 1 x\n+ 0 0.000000 2 1 x\n+ 0 0.000000 3 1 x\n- 1 0.000000 3 1 x\n",
    ),
    (
        b"ab\r\nab|\x1b[1;2H\x1b[K",
        "b",
        "+ 0 0.000000 1 2 ab\n+ 0 0.000000 2 2 ab\n- 1 0.000000 2 2 ab\n",
    ),
    // One with another left part isn't equal.
    (
        b"ab\r\ncb|\x1b[1;2H\x1b[K",
        "b",
        "+ 0 0.000000 1 2 ab\n+ 0 0.000000 2 2 cb\n- 1 0.000000 1 2 ab\n",
    ),
    // A line stays, and the one changes into which a text ran on from it.
    (
        b"\x1b[1;80Hw\x1b[2;1Hh|\x1b[2;1Hx",
        "wh",
        "+ 0 0.000000 1 80                                                                                wh\n- 1 0.000000 1 80                                                                                wh\n",
    ),
];

/// The find lines of chunks without delays.
fn found(
    rt: &(impl Runtime<A = Global> + Abort),
    chunks: &[u8],
    from: Option<u64>,
    text: &str,
) -> Result<Vec<u8>, Fail> {
    let alloc = rt.alloc();
    let mut script = vec![in alloc; b'\n']?;
    let mut timing = String::new(alloc);
    for chunk in chunks.split(|byte| *byte == b'|') {
        script.extend_from_slice(chunk)?;
        timing.push_str(format!(in alloc; "0 {}\n", chunk.len())?.as_str())?;
    }
    let recording = read(rt, script.as_slice(), timing.as_bytes())?;
    let mut session = Session::open(alloc, recording, 1)?;
    let mut characters = Vec::new(alloc);
    for character in text.chars() {
        characters.push(character)?;
    }
    let mut writer = Watched::new(Vec::new(alloc));
    let answer = find(
        alloc,
        &mut session,
        from,
        0,
        characters.as_slice(),
        &mut writer,
    );
    assert_eq!(rt; answer, Ok(()));
    Ok(writer.into_inner())
}

#[test]
fn tells_where_a_text_comes_and_goes(rt: HostRuntime) -> Result<(), Fail> {
    for (chunks, text, lines) in &ROWS {
        let got = found(&rt, chunks, None, text)?;
        assert_eq!(&rt; got.as_slice(), lines.as_bytes(), "{text}");
    }
    Ok(())
}

/// Lines with two places each that scroll: each place comes once, and nothing is told of lines that leave at the top.
#[test]
fn a_body_that_scrolls_keeps_its_places(rt: HostRuntime) -> Result<(), Fail> {
    let alloc = rt.alloc();
    let mut chunks = Vec::new(alloc);
    for _ in 0..30 {
        chunks.extend_from_slice(b"err err\r\n|")?;
    }
    chunks.extend_from_slice(b"\x1b[2J")?;
    let mut lines = String::new(alloc);
    for row in 1u8..24 {
        for column in [1u8, 5] {
            let line = format!(in alloc; "+ {} 0.000000 {row} {column} err err\n", row - 1)?;
            lines.push_str(line.as_str())?;
        }
    }
    for row in 1u8..24 {
        for column in [1u8, 5] {
            let line = format!(in alloc; "- 30 0.000000 {row} {column} err err\n")?;
            lines.push_str(line.as_str())?;
        }
    }
    let got = found(&rt, chunks.as_slice(), None, "err")?;
    assert_eq!(&rt; got.as_slice(), lines.as_bytes());
    Ok(())
}

#[test]
fn tells_what_stands_at_the_moment(rt: HostRuntime) -> Result<(), Fail> {
    let got = found(&rt, b"ab|x", Some(0), "a")?;
    assert_eq!(&rt; got.as_slice(), b"= 2 0.000000 1 1 abx\n".as_slice());
    Ok(())
}

#[test]
fn lines_that_scroll_dont_pass(rt: HostRuntime) -> Result<(), Fail> {
    let alloc = rt.alloc();
    let mut chunks = Vec::new(alloc);
    let mut lines = String::new(alloc);
    for _ in 0..60 {
        chunks.extend_from_slice(b"l\r\n")?;
    }
    for row in 1u8..24 {
        lines.push_str(format!(in alloc; "+ 0 0.000000 {row} 1 l\n")?.as_str())?;
    }
    let got = found(&rt, chunks.as_slice(), None, "l")?;
    assert_eq!(&rt; got.as_slice(), lines.as_bytes());
    Ok(())
}
