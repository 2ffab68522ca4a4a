//! Find lines of the terminal of today.

use std::alloc::Global;
use std::process::Abort;
use std::rt::{HostRuntime, Runtime};
use std::test::Fail;
use tape_core::Watched;
use tape_tests::once_more::read;
use xterm_print::{find, open};
use xterm_term::Size;

/// Chunks without delays on 12 columns and 3 lines, divided by bars, a text, and its find lines.
const ROWS: &[(&str, &str, &str)] = &[
    // The screen is erased.
    (
        "ab\r\nab|\x1b[2J",
        "ab",
        "+ 0 0.000000 1 1 ab\n+ 0 0.000000 2 1 ab\n- 1 0.000000 1 1 ab\n- 1 0.000000 2 1 ab\n",
    ),
    // A line that scrolls stays.
    ("\x1b[3;1Herr|\r\n|x", "err", "+ 0 0.000000 3 1 err\n"),
    // Text to the right changes nothing.
    ("er|r|or", "err", "+ 1 0.000000 1 1 err\n"),
    // The second of two equal lines.
    (
        "err|\r\nerr",
        "err",
        "+ 0 0.000000 1 1 err\n+ 1 0.000000 2 1 err\n",
    ),
    // A text runs on over the margin.
    ("xxxxxxxxxxabc", "abc", "+ 0 0.000000 1 11 xxxxxxxxxxabc\n"),
    // Overlapping places.
    ("aaa", "aa", "+ 0 0.000000 1 1 aaa\n+ 0 0.000000 1 2 aaa\n"),
    // It scrolls away, and is written over.
    ("a\n\n\n\n", "a", "~ 0 0.000000 1 1 a\n"),
    ("err\rok ", "err", "~ 0 0.000000 1 1 err\n"),
    // It is written again, and erased and written again.
    ("err|\rerr", "err", "+ 0 0.000000 1 1 err\n"),
    ("err\r\x1b[Kerr", "err", "+ 0 0.000000 1 1 err\n"),
    // It comes to stand over a border of chunks.
    ("rm |-rf\x1b[2J", "rm -rf", "~ 1 0.000000 1 1 rm -rf\n"),
    // It stands nowhere.
    ("x", "y", ""),
    // UTF-8, over a border of chunks inside a character.
    (
        "gr\u{fc}\u{df}e|\x1b[1;1HG",
        "\u{fc}\u{df}",
        "+ 0 0.000000 1 3 gr\u{fc}\u{df}e\n- 1 0.000000 1 3 gr\u{fc}\u{df}e\n+ 1 0.000000 1 3 Gr\u{fc}\u{df}e\n",
    ),
    // A character of width 2 takes two columns.
    (
        "\u{65e5}\u{672c}a",
        "\u{672c}a",
        "+ 0 0.000000 1 3 \u{65e5}\u{672c}a\n",
    ),
    (
        "\u{65e5}\u{672c}a",
        "a",
        "+ 0 0.000000 1 5 \u{65e5}\u{672c}a\n",
    ),
    // One that didn't fit into the last column: that is left out.
    (
        "abcdefghijk\u{65e5}",
        "k\u{65e5}",
        "+ 0 0.000000 1 11 abcdefghijk\u{65e5}\n",
    ),
    // Where two columns are free, the line ends.
    ("abcdefghij\r\n\u{65e5}", "j\u{65e5}", ""),
    // Marks belong to their character, and are compared as they stand.
    (
        "cafe\u{301}s",
        "e\u{301}s",
        "+ 0 0.000000 1 4 cafe\u{301}s\n",
    ),
    ("cafe\u{301}s", "es", ""),
    ("cafe\u{301}s", "\u{301}", "+ 0 0.000000 1 4 cafe\u{301}s\n"),
    // Colours change inside a text.
    (
        "e\x1b[31mr\x1b[1;44mr\x1b[m",
        "err",
        "+ 0 0.000000 1 1 err\n",
    ),
    // REP puts its characters at one byte.
    ("a\x1b[3b\x1b[2J", "aaaa", "~ 0 0.000000 1 1 aaaa\n"),
    // The alternate sheet hides the main one, and is blank when it is entered anew.
    (
        "main|\x1b[?1049halt|\x1b[?1049l",
        "main",
        "+ 0 0.000000 1 1 main\n- 1 0.000000 1 1 main\n+ 2 0.000000 1 1 main\n",
    ),
    (
        "\x1b[?1049hmain\x1b[?1049l",
        "main",
        "~ 0 0.000000 1 1 main\n",
    ),
    // It comes and goes in one printed run over older letters, of two characters and of one.
    ("abcd|\rxyz", "xb", "~ 1 0.000000 1 1 xbcd\n"),
    ("abc|\rx\ry", "x", "~ 1 0.000000 1 1 xbc\n"),
    // The same over the margin: the run wraps, or the row above runs on.
    (
        "\x1b[2;1Hold|\x1b[1;10Habcx",
        "co",
        "~ 1 0.000000 1 12          abcold\n",
    ),
    (
        "\x1b[1;12Ha|\x1b[2;1Hbc\x1b[2;1Hx",
        "ab",
        "~ 1 0.000000 1 12            abc\n",
    ),
    // By sequences alone, and behind one that a border of chunks cuts.
    ("axb|\x1b[1;2H\x1b[P\x1b[@", "ab", "~ 1 0.000000 1 1 ab\n"),
    ("ab\x1b[|2Dxy", "xb", "~ 1 0.000000 1 1 xb\n"),
    // Chunks in which it stands nowhere lie before and between those in which it comes and goes.
    (
        "x|\r\ny|\x1b[1;1Hab|\x1b[2;1Hcd|\x1b[1;1Hz|q|\x1b[1;1Hab",
        "ab",
        "+ 2 0.000000 1 1 ab\n- 4 0.000000 1 1 ab\n+ 6 0.000000 1 1 ab\n",
    ),
    // Another left part.
    (
        "err\r\x1b[@xerr|z",
        "err",
        "~ 0 0.000000 1 1 err\n~ 0 0.000000 1 2  err\n+ 0 0.000000 1 2 xerr\n",
    ),
    // A text whose end is of the old row and whose beginning of the new one, or the other way round.
    ("bcb|\raax", "ab", "~ 1 0.000000 1 2 aab\n"),
    ("xxb|\rxac", "ba", ""),
    ("b|\r\x1b[4ha", "ab", "+ 1 0.000000 1 1 ab\n"),
    // Over the left half of a wide character, whose right half goes.
    (
        "\u{65e5}\u{672c}|\rab",
        "b\u{672c}",
        "+ 1 0.000000 1 2 ab\u{672c}\n",
    ),
    // A control inside a sequence acts at once, a title shows nothing.
    (
        "ab|\x1b[\rK",
        "ab",
        "+ 0 0.000000 1 1 ab\n- 1 0.000000 1 1 ab\n",
    ),
    ("\x1b]0;err\u{7}x", "err", ""),
    // A sequence over a border of chunks.
    ("ab\x1b[|1;1|Hx", "xb", "+ 2 0.000000 1 1 xb\n"),
];

/// The find lines of chunks without delays.
fn found(
    rt: &(impl Runtime<A = Global> + Abort),
    chunks: &str,
    from: Option<u64>,
    text: &str,
) -> Result<Vec<u8>, Fail> {
    let alloc = rt.alloc();
    let mut script = vec![in alloc; b'\n']?;
    let mut timing = String::new(alloc);
    for chunk in chunks.split('|') {
        script.extend_from_slice(chunk.as_bytes())?;
        timing.push_str(format!(in alloc; "0 {}\n", chunk.len())?.as_str())?;
    }
    let recording = read(rt, script.as_slice(), timing.as_bytes())?;
    let size = Size::new(12, 3).ok_or("no size")?;
    let mut session = open(alloc, recording, 1, size)?;
    let mut characters = Vec::new(alloc);
    for character in text.chars() {
        characters.push(character)?;
    }
    let mut writer = Watched::new(Vec::new(alloc));
    let answer = find(
        alloc,
        &mut session,
        from,
        0,
        characters.as_slice(),
        &mut writer,
    );
    assert_eq!(rt; answer, Ok(()));
    Ok(writer.into_inner())
}

fn assert_found(
    rt: &(impl Runtime<A = Global> + Abort),
    rows: &[(&str, &str, &str)],
) -> Result<(), Fail> {
    for (chunks, text, lines) in rows {
        let got = found(rt, chunks, None, text)?;
        let got = std::str::from_utf8(got.as_slice()).unwrap_or("");
        assert_eq!(rt; got, *lines, "{chunks}");
    }
    Ok(())
}

#[test]
fn tells_where_a_text_comes_and_goes(rt: HostRuntime) -> Result<(), Fail> {
    assert_found(&rt, ROWS)
}

#[test]
fn tells_what_stands_at_the_moment(rt: HostRuntime) -> Result<(), Fail> {
    let got = found(&rt, "ab|x", Some(0), "a")?;
    assert_eq!(&rt; got.as_slice(), b"= 2 0.000000 1 1 abx\n".as_slice());
    Ok(())
}

#[test]
fn lines_that_scroll_dont_pass(rt: HostRuntime) -> Result<(), Fail> {
    let alloc = rt.alloc();
    let mut chunks = String::new(alloc);
    for _ in 0..20 {
        chunks.push_str("l\r\n")?;
    }
    let got = found(&rt, chunks.as_str(), None, "l")?;
    assert_eq!(&rt;
        got.as_slice(),
        b"+ 0 0.000000 1 1 l\n+ 0 0.000000 2 1 l\n".as_slice()
    );
    Ok(())
}
