//! Sessions on a VT100 and a VT102 as text.

use screen_transcript::Transcriber;
use std::alloc::Global;
use std::rt::Runtime;
use std::test::Fail;
use tape_core::{Watched, read_recording};
use transcripts::transcript;
use vt_term::Profile;

/// What is written, and its text.
const ROWS: [(&[u8], &str); 26] = [
    (b"", ""),
    (
        b"one\r\ntwo\r\n\r\nfour\r\nfive\r\nsix\r\n\r\n",
        "one\ntwo\n\nfour\nfive\nsix\n",
    ),
    // Lines that were drawn over are no rows.
    (b"10%\r50%\r100%\x1b[K\r\ndone  \r\n", "100%\ndone\n"),
    // Rows that leave a region that begins at line 1, and one that begins below it.
    (
        b"1\r\n2\r\n3\r\n4\x1b[1;3r\x1b[3;1H\n\n\x1b[r\x1b[4;1H\r\n5",
        "1\n2\n3\n\n\n4\n5\n",
    ),
    (b"1\r\n2\r\n3\r\n4\x1b[2;4r\x1b[4;1H\n\n", "1\n4\n"),
    // The same by VT, FF, IND and NEL, and by a wrap.
    (b"1\r\n2\r\n3\x1b[1;3r\x1b[3;1H\x0b\x0c", "1\n2\n3\n"),
    (b"1\r\n2\r\n3\x1b[1;3r\x1b[3;1H\x1bD\x1bE", "1\n2\n3\n"),
    (
        b"1\r\n2\x1b[1;2r\x1b[2;79Habcd",
        "1\n2                                                                             ab\ncd\n",
    ),
    // A line feed above the bottom margin, and reverse index.
    (b"1\r\n2\x1b[1;3r\x1b[H\nx", "1\nx\n"),
    (b"1\x1b[H\x1bM", "\n1\n"),
    // All rows with ink leave where the display is erased, and no blank ones below them.
    (
        b"$ ls\r\na\r\n$ clear\r\n\x1b[H\x1b[2J\x1b[3J$ ",
        "$ ls\na\n$ clear\n$\n",
    ),
    (b"a\x1b[2J\x1b[2J\r\nb\x1bcc", "a\n\nb\nc\n"),
    (b"a\x1b[1J", ""),
    // From the cursor on it counts directly behind home.
    (b"a\r\n\r\nb\x1b[H\x1b[Jc\x1b[H\x1b[J", "a\n\nb\nc\n"),
    (b"% a\r\r\x1b[J% ab\r\r\x1b[J% abc", "% abc\n"),
    (b"a\x1b[2;2f\x1b[H\x1b[;fx\x1b[Jb", "xb\n"),
    (b"a\x1b[H\x1b[m\x1b[Jb", "b\n"),
    (b"a\x1b[H\x00\x1b[Jb", "b\n"),
    (b"a\x1b[H\x07\x1b[Jb", "a\nb\n"),
    (b"a\x1b[H\x1b[\r0Jb", "b\n"),
    // A string leaves it, but its end is a finished sequence.
    (b"a\x1b[H\x1b]0;t\x07\x1b[Jb", "a\nb\n"),
    (b"a\x1b[H\x1b]0;t\x1b\\\x1b[Jb", "b\n"),
    // A sequence that is cut puts the error character.
    (b"a\x1b[H\x1b[\x18\x1b[Jb", "\u{2592}b\n"),
    // Columns that are set, and VT52 mode.
    (b"ab\x1b[?3hcd\x1b[?3l", "ab\ncd\n"),
    (b"ab\x1b[?2l\x1bH\x1bJc", "ab\nc\n"),
    (b"ab\x1b[?2l\x1bY  \x1bJc\x1bY! \x1bJd", "ab\nc\nd\n"),
];

/// Chunks due at 1 and at 2 seconds: the first leaves two rows, the second two more.
const FIRST: &[u8] =
    b"1\r\n2\r\n3\r\n4\r\n5\r\n6\r\n7\r\n8\r\n9\r\n10\r\n11\r\n12\r\n13\r\n14\r\n15\r\n16\r\n17\r\n18\r\n19\r\n20\r\n21\r\n22\r\n23\r\n24\r\n25\r\n26";

const SECOND: &[u8] = b"\r\n27\r\n28";

/// From and to which moment, in microseconds, and the first and the last number that is told.
const MOMENTS: [(Option<u64>, Option<u64>, u8, u8); 6] = [
    (None, None, 1, 28),
    (None, Some(1_000_000), 1, 26),
    (Some(999_999), None, 1, 28),
    (Some(1_000_000), None, 3, 28),
    (Some(2_000_000), None, 5, 28),
    (Some(2_000_000), Some(1_000_000), 3, 26),
];

/// The transcript of chunks, each a second behind the one before it.
fn told(
    rt: &impl Runtime<A = Global>,
    profile: Profile,
    chunks: &[&[u8]],
    from: Option<u64>,
    to: Option<u64>,
) -> Result<Vec<u8>, Fail> {
    let alloc = rt.alloc();
    let mut script = vec![in alloc; b'\n']?;
    let mut timing = String::new(alloc);
    for chunk in chunks {
        script.extend_from_slice(chunk)?;
        timing.push_str(format!(in alloc; "1 {}\n", chunk.len())?.as_str())?;
    }
    let recording = read_recording(alloc, script.as_slice(), timing.as_bytes())?;
    let mut writer = Watched::new(Vec::new(alloc));
    transcript::<Transcriber, _>(alloc, profile, &recording, from, to, &mut writer)?;
    Ok(writer.into_inner())
}

#[test]
fn tells_what_left_and_what_stands(rt: HostRuntime) -> Result<(), Fail> {
    for (bytes, wanted) in &ROWS {
        // A chunk may end at any place.
        for cut in 0..bytes.len() + 1 {
            let (first, second) = bytes.split_at(cut);
            let text = told(&rt, Profile::Vt100, &[first, second], None, None)?;
            assert_eq!(rt;
                text.as_slice(),
                wanted.as_bytes(),
                "after {bytes:?} cut at {cut}"
            );
        }
    }
    Ok(())
}

#[test]
fn lines_that_are_deleted_leave_no_row(rt: HostRuntime) -> Result<(), Fail> {
    let two: [(&[u8], &str); 2] = [
        (b"a\r\nb\x1b[H\x1b[Mc", "c\n"),
        (b"1\r\n2\r\n3\r\n4\x1b[H\x1b[2Mx\x1bM", "\nx\n4\n"),
    ];
    for (bytes, wanted) in two {
        let text = told(&rt, Profile::Vt102, &[bytes], None, None)?;
        assert_eq!(rt; text.as_slice(), wanted.as_bytes(), "after {bytes:?}");
    }
    Ok(())
}

#[test]
fn begins_and_ends_where_it_is_asked_to(rt: HostRuntime) -> Result<(), Fail> {
    for (from, to, first, last) in MOMENTS {
        let mut wanted = String::new(rt.alloc());
        for number in first..last + 1 {
            wanted.push_str(format!(in rt.alloc(); "{number}\n")?.as_str())?;
        }
        let text = told(&rt, Profile::Vt100, &[FIRST, SECOND], from, to)?;
        assert_eq!(rt;
            text.as_slice(),
            wanted.as_bytes(),
            "from {from:?} to {to:?}"
        );
    }
    Ok(())
}

#[test]
fn holds_blank_rows_back(rt: HostRuntime) -> Result<(), Fail> {
    let mut bytes = vec![in rt.alloc(); b'a']?;
    let mut wanted = String::from_str(rt.alloc(), "a\n")?;
    for _ in 0..100 {
        bytes.push(b'\n')?;
    }
    for _ in 0..99 {
        wanted.push_str("\n")?;
    }
    let text = told(&rt, Profile::Vt100, &[bytes.as_slice()], None, None)?;
    assert_eq!(rt; text.as_slice(), b"a\n".as_slice());
    bytes.push(b'b')?;
    wanted.push_str(" b\n")?;
    let text = told(&rt, Profile::Vt100, &[bytes.as_slice()], None, None)?;
    assert_eq!(rt; text.as_slice(), wanted.as_bytes());
    Ok(())
}
