//! Sessions on a terminal of today as text.

use std::alloc::Global;
use std::rt::Runtime;
use std::test::Fail;
use tape_core::{Watched, read_recording};
use transcripts::transcript;
use xterm_term::Size;
use xterm_transcript::Transcriber;

/// The size of all of them but one.
const SMALL: Size = Size {
    columns: 10,
    lines: 4,
};

/// What is written, and its text.
const ROWS: &[(&[u8], &str)] = &[
    (b"", ""),
    (b"\x1b]0;a", ""),
    (
        b"one\r\ntwo\r\n\r\nfour\r\nfive\r\nsix\r\n\r\n",
        "one\ntwo\n\nfour\nfive\nsix\n",
    ),
    (b"a\n\n\n\n\n\nb\n\n\n\n\n\n\n", "a\n\n\n\n\n\n b\n"),
    // Lines that were drawn over are no rows.
    (b"10%\r50%\r100%\x1b[K\r\ndone  \r\n", "100%\ndone\n"),
    // Rows that leave a region that begins at line 1, and one that begins below it.
    (
        b"1\r\n2\r\n3\r\n4\x1b[1;3r\x1b[3;1H\n\n\x1b[r\x1b[4;1H\r\n5",
        "1\n2\n3\n\n\n4\n5\n",
    ),
    (b"1\r\n2\r\n3\r\n4\x1b[2;4r\x1b[4;1H\n\n", "1\n4\n"),
    // The same by VT, FF, IND and NEL.
    (b"1\r\n2\r\n3\x1b[1;3r\x1b[3;1H\x0b\x0c", "1\n2\n3\n"),
    (b"1\r\n2\r\n3\x1b[1;3r\x1b[3;1H\x1bD\x1bE", "1\n2\n3\n"),
    // SU takes rows, at most those inside the margins, and SD none.
    (b"1\r\n2\r\n3\r\n4\x1b[2Sx", "1\n2\n3\n4\n\n x\n"),
    (b"1\r\n2\r\n3\r\n4\x1b[1;3r\x1b[9S", "1\n2\n3\n\n\n\n4\n"),
    (b"1\r\n2\r\n3\r\n4\x1b[2;4r\x1b[S", "1\n3\n4\n"),
    (b"1\r\n2\r\n3\r\n4\x1b[T", "\n1\n2\n3\n"),
    // Lines that are deleted leave none.
    (b"1\r\n2\r\n3\r\n4\x1b[H\x1b[2Mx\x1bM", "\nx\n4\n"),
    // All rows with ink leave where the display is erased, and no blank ones below them.
    (
        b"$ ls\r\na\r\n$ clear\r\n\x1b[H\x1b[2J\x1b[3J$ ",
        "$ ls\na\n$ clear\n$\n",
    ),
    (b"a\x1b[2J\x1b[2J\r\nb\x1bcc", "a\n\nb\nc\n"),
    (b"a\x1b[1J\x1b[3Jb", " b\n"),
    // From the cursor on it counts directly behind home.
    (b"a\r\n\r\nb\x1b[H\x1b[Jc\x1b[H\x1b[J", "a\n\nb\nc\n"),
    (b"% a\r\r\x1b[J% ab\r\r\x1b[J% abc", "% abc\n"),
    (b"a\x1b[2;2f\x1b[H\x1b[;fx\x1b[Jb", "xb\n"),
    (b"a\x1b[H\x1b[m\x1b[Jb", "b\n"),
    (b"a\x1b[H\x00\x1b[Jb", "b\n"),
    (b"a\x1b[H\x07\x1b[Jb", "a\nb\n"),
    (b"a\x1b[H\x1b[\r0Jb", "b\n"),
    // A string leaves it, but its end and the beginning of a title are finished sequences.
    (b"a\x1b[H\x1b]0;t\x07\x1b[Jb", "a\nb\n"),
    (b"a\x1b[H\x1b]0;t\x1b\\\x1b[Jb", "b\n"),
    (b"a\x1b[H\x1bkt\x07\x1b[Jb", "b\n"),
    (b"\x1bkt\x1b[2Ja\x1b[2Jb", "a\n b\n"),
    // A sequence that is cut is nothing, nor is a character that puts nothing.
    (b"a\x1b[H\x1b[\x18\x1b[Jb", "a\nb\n"),
    (b"a\x1b[H\x1b[1\x1b[Jb", "a\nb\n"),
    (b"a\x1b[H\xc2\x9b\x1b[Jb", "a\nb\n"),
    // Others count, marks too, and bytes that are none.
    (b"a\x1b[H\xcc\x81\x1b[Jb", "b\n"),
    (b"a\x1b[H\xc3\x1b[Jb", "\u{FFFD}b\n"),
    (b"a\x1b[H\xff\x1b[Jb", "\u{FFFD}b\n"),
    // The alternate sheet leaves none, and the main one stands behind it.
    (
        b"$ vi\r\n\x1b[?1049h1\r\n2\r\n3\r\n4\r\n5\x1b[2J\x1b[?1049l$ ",
        "$ vi\n$\n",
    ),
    (b"1\r\n2\r\n3\r\n4\r\n5\x1b[?1049hvi", "1\n2\n3\n4\n5\n"),
    (
        b"1\r\n2\x1b[?47ha\x1b[2Sb\x1b[H\x1b[Jc\x1b[4;9H12345",
        "1\n2\n",
    ),
    (b"1\r\n2\x1b[?47h\x1b[Hb\x1bcd", "1\n2\nd\n"),
    // A wrap is a row, also where a wide character finds no room.
    (
        b"abcdefghijklm\r\n0123456789\r\nab cd ef gh ij\r\n",
        "abcdefghij\nklm\n0123456789\nab cd ef g\nh ij\n",
    ),
    (
        b"abcdefghi\xe6\x97\xa5\xe6\x9c\xac\r\nab",
        "abcdefghi\n日本\nab\n",
    ),
    (
        b"1\r\n2\r\n3\r\nabcdefghi\xe6\x97\xa5",
        "1\n2\n3\nabcdefghi\n日\n",
    ),
    (
        b"1\r\n2\r\n3\r\nabcdefghi\x1b[?7l\xe6\x97\xa5",
        "1\n2\n3\nabcdefghi\n",
    ),
    (
        b"1\r\n2\r\n3\r\nabcdefghij\xc3\xa9\xcc\x81",
        "1\n2\n3\nabcdefghij\né\u{301}\n",
    ),
    (
        b"1\r\n2\r\n3\r\nabcdefghij\xc3\n",
        "1\n2\n3\nabcdefghij\n\u{FFFD}\n",
    ),
    (
        b"1\r\n2\r\n3\r\nabcdefghij\xcc\x81\xc2\x85",
        "1\n2\n3\nabcdefghij\u{301}\n",
    ),
    (
        b"\x1b(0lqk\x0f\x1b[4;8Hqqqqqq",
        "┌─┐\n\n\n       ───\n───\n",
    ),
    // A character that is repeated wraps again and again, where one is.
    (
        b"1\r\n2\r\n3\r\na\x1b[25b",
        "1\n2\n3\naaaaaaaaaa\naaaaaaaaaa\naaaaaa\n",
    ),
    (
        b"1\r\n2\r\n3\r\n\xe6\x97\xa5\x1b[7b",
        "1\n2\n3\n日日日日日\n日日日\n",
    ),
    (b"1\r\n2\r\n3\r\na\x1b[\x0025b", "1\n2\n3\na\n"),
    (b"1\r\n2\r\n3\r\na\x1b[b\x1b[25b", "1\n2\n3\naa\n"),
];

/// Chunks due at 1 and at 2 seconds: the first leaves a row, the second two more.
const FIRST: &[u8] = b"1\r\n2\r\n3\r\n4\r\n5";

const SECOND: &[u8] = b"\r\n6\r\n7";

/// From and to which moment, in microseconds, and what is told.
const MOMENTS: [(Option<u64>, Option<u64>, &str); 5] = [
    (None, None, "1\n2\n3\n4\n5\n6\n7\n"),
    (None, Some(1_000_000), "1\n2\n3\n4\n5\n"),
    (Some(1_000_000), None, "2\n3\n4\n5\n6\n7\n"),
    (Some(2_000_000), None, "4\n5\n6\n7\n"),
    (Some(2_000_000), Some(1_000_000), "2\n3\n4\n5\n"),
];

/// The transcript of chunks, each a second behind the one before it.
fn told(
    rt: &impl Runtime<A = Global>,
    size: Size,
    chunks: &[&[u8]],
    from: Option<u64>,
    to: Option<u64>,
) -> Result<Vec<u8>, Fail> {
    let alloc = rt.alloc();
    let mut script = vec![in alloc; b'\n']?;
    let mut timing = String::new(alloc);
    for chunk in chunks {
        script.extend_from_slice(chunk)?;
        timing.push_str(format!(in alloc; "1 {}\n", chunk.len())?.as_str())?;
    }
    let recording = read_recording(alloc, script.as_slice(), timing.as_bytes())?;
    let mut writer = Watched::new(Vec::new(alloc));
    transcript::<Transcriber, _>(alloc, size, &recording, from, to, &mut writer)?;
    Ok(writer.into_inner())
}

#[test]
fn tells_what_left_and_what_stands(rt: HostRuntime) -> Result<(), Fail> {
    for (bytes, wanted) in ROWS {
        // A chunk may end at any place.
        for cut in 0..bytes.len() + 1 {
            let (first, second) = bytes.split_at(cut);
            let text = told(&rt, SMALL, &[first, second], None, None)?;
            assert_eq!(rt;
                text.as_slice(),
                wanted.as_bytes(),
                "after {bytes:?} cut at {cut}"
            );
        }
    }
    Ok(())
}

#[test]
fn begins_and_ends_where_it_is_asked_to(rt: HostRuntime) -> Result<(), Fail> {
    for (from, to, wanted) in MOMENTS {
        let text = told(&rt, SMALL, &[FIRST, SECOND], from, to)?;
        assert_eq!(rt;
            text.as_slice(),
            wanted.as_bytes(),
            "from {from:?} to {to:?}"
        );
    }
    Ok(())
}

#[test]
fn tells_one_line_of_two_columns(rt: HostRuntime) -> Result<(), Fail> {
    let size = Size {
        columns: 2,
        lines: 1,
    };
    let text = told(&rt, size, &["ab日cd\r\nef".as_bytes()], None, None)?;
    assert_eq!(rt; text.as_slice(), "ab\n日\ncd\nef\n".as_bytes());
    Ok(())
}
