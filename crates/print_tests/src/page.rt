//! Pages.

use screen_page::page;
use screen_print::ChangesFault;
use std::alloc::Global;
use std::process::Abort;
use std::rt::Runtime;
use std::test::Fail;
use tape_core::{Fault, Watched};
use tape_seek::Session;
use tape_tests::devices::{Writing, small_writer};
use tape_tests::once_more::read;

/// Chunks, each half a second behind the one before it, divided by bars, and the entries of their page.
const ROWS: [(&[u8], &str); 6] = [
    (b"", "[[0.000000,0,1,1],\n[0.500000,0,1,1]]"),
    // Rows that come, that stay, that move, and one that is double and has what JSON and HTML escape.
    (
        b"ab\r\ncd|\x1b[2;1H\x1bM\x1b[H\x1b[L|\x1b[1;1H\x1bM|\x1b#6\x1b[?5h\"\\<",
        "[[0.000000,0,1,1],\n[0.500000,0,2,3,1,[0,0,\"ab\"],2,[0,0,\"cd\"]],\n[1.000000,0,1,1],\n[1.500000,0,1,1,1,3,2,1,3,2],\n[2.000000,2,1,4,1,[1,0,\"\\\"\\\\\\u003c\"]]]",
    ),
    // The least line that was the row, of two.
    (
        b"a\r\na|\x1b[3;1Ha",
        "[[0.000000,0,1,1],\n[0.500000,0,2,2,1,[0,0,\"a\"],2,[0,0,\"a\"]],\n[1.000000,0,3,2,3,1]]",
    ),
    // Runs of kinds, and 132 columns, which erase them.
    (
        b"\x1b[1;7m\x1b(0q\x1b(B>\x1b[m\x1b[5;4m x|\x1b[?3h",
        "[[0.000000,0,1,1],\n[0.500000,0,1,5,1,[0,25,\"\u{2500}\",9,\">\",6,\" x\"]],\n[1.000000,1,1,1,1,2]]",
    ),
    // The blank of the special graphics isn't a space, but is told as one.
    (
        b"\x1b(0_|\r\x1b(B |\x1b#3|\x1b#4",
        "[[0.000000,0,1,1],\n[0.500000,0,1,2,1,[0,0,\" \"]],\n[1.000000,0,1,2,1,2],\n[1.500000,0,1,2,1,[2]],\n[2.000000,0,1,2,1,[3]]]",
    ),
    // A chunk that ends before the next one begins to show.
    (
        b"\x1b[|31mz",
        "[[0.000000,0,1,1],\n[0.500000,0,1,1],\n[1.000000,0,1,2,1,[0,0,\"z\"]]]",
    ),
];

/// A session over chunks, each half a second behind the one before it.
fn session_of(rt: &impl Runtime<A = Global>, chunks: &[u8]) -> Result<Session, Fail> {
    let alloc = rt.alloc();
    let mut script = vec![in alloc; b'\n']?;
    let mut timing = String::new(alloc);
    for chunk in chunks.split(|byte| *byte == b'|') {
        script.extend_from_slice(chunk)?;
        timing.push_str(format!(in alloc; "0.5 {}\n", chunk.len())?.as_str())?;
    }
    let recording = read(rt, script.as_slice(), timing.as_bytes())?;
    Ok(Session::open(alloc, recording, 1)?)
}

/// The page of chunks, of this title.
fn page_of(
    rt: &(impl Runtime<A = Global> + Abort),
    title: &[char],
    chunks: &[u8],
) -> Result<Vec<u8>, Fail> {
    let mut session = session_of(rt, chunks)?;
    let mut writer = Watched::new(Vec::new(rt.alloc()));
    let answer = page(&mut session, title, &mut writer);
    assert_eq!(rt; answer, Ok(()));
    Ok(writer.into_inner())
}

/// Between the player's parts, whose first is a whole HTML head and whose last ends the document, stand the entries.
#[test]
fn holds_the_entries_of_its_recording(rt: HostRuntime) -> Result<(), Fail> {
    for (chunks, entries) in &ROWS {
        let page = page_of(&rt, &[], chunks)?;
        let text = std::str::from_utf8(page.as_slice()).unwrap_or("");
        let (head, rest) = text.split_once(" id=\"entries\">\n").unwrap_or(("", ""));
        let (data, tail) = rest.split_once("\n</script>\n").unwrap_or(("", ""));
        assert!(&rt; head.starts_with("<!DOCTYPE html>\n<html lang=\"en\">\n"));
        assert_eq!(&rt; data, *entries);
        assert!(&rt; tail.ends_with("</script>\n</body>\n</html>\n"));
    }
    Ok(())
}

/// Characters that HTML escapes, quotes, controls, and what takes two, three and four bytes.
const TITLE: &[char] = &[
    'a',
    '&',
    '<',
    '>',
    '"',
    '\'',
    '\0',
    '\n',
    '\u{1b}',
    '\u{7f}',
    '\u{9f}',
    '\u{a0}',
    'é',
    '─',
    '\u{1f600}',
];

/// The title stands in the head and once more as the heading, and nothing of it is markup.
#[test]
fn tells_its_title_twice(rt: HostRuntime) -> Result<(), Fail> {
    for (title, wanted) in [
        (TITLE, "a&amp;&lt;&gt;\"'?????\u{a0}é─\u{1f600}"),
        (&[], ""),
    ] {
        let page = page_of(&rt, title, b"x")?;
        let text = std::str::from_utf8(page.as_slice()).unwrap_or("");
        let (_, behind) = text.split_once("\n<title>").unwrap_or(("", ""));
        let (titled, rest) = behind.split_once("</title>\n").unwrap_or(("", ""));
        let (_, behind) = rest.split_once("\n<h1>").unwrap_or(("", ""));
        let (headed, _) = behind.split_once("</h1>\n").unwrap_or(("", ""));
        assert_eq!(&rt; [titled, headed], [wanted, wanted]);
    }
    Ok(())
}

/// A page of which a writer takes only the first bytes, cut in each of its parts.
#[test]
fn stops_where_the_writer_fails(rt: HostRuntime) -> Result<(), Fail> {
    let chunks = ROWS[1].0;
    let whole = page_of(&rt, TITLE, chunks)?;
    let len = whole.len();
    let data = len.saturating_sub(15_000);
    for room in [0, 1, 2_000, data, len.saturating_sub(1), len] {
        for flush_fails in [false, true] {
            let mut session = session_of(&rt, chunks)?;
            let mut writer = Watched::new(small_writer(rt.alloc(), room, flush_fails));
            let answer = page(&mut session, TITLE, &mut writer).map_err(|fault| match fault {
                ChangesFault::Write => Fault::WriteFault,
                ChangesFault::Memory => Fault::OutOfMemory,
            });
            let writing = Writing::of(answer, writer);
            assert_eq!(rt;
                writing.told(),
                writing.wanted(whole.as_slice()),
                "room for {room}"
            );
        }
    }
    Ok(())
}
