//! Letters, and sequences that select renditions between them: where a terminal tells of them before they are played.

use crate::told::feed_reset;
use std::process::Abort;
use std::test::Fail;
use xterm_term::{CharacterSet, letter_at, styling_at};

// A set, bytes, and the letter that the first of them bring, by how many.
const LETTERS: &[(CharacterSet, &[u8], (char, usize))] = &[
    (CharacterSet::Ascii, b"ab", ('a', 1)),
    (CharacterSet::Ascii, b" ", (' ', 1)),
    (CharacterSet::Ascii, b"~", ('~', 1)),
    (CharacterSet::Ascii, b"#", ('#', 1)),
    (CharacterSet::Uk, b"#1", ('\u{A3}', 1)),
    (CharacterSet::Uk, b"q", ('q', 1)),
    (CharacterSet::SpecialGraphics, b"q", ('\u{2500}', 1)),
    (CharacterSet::SpecialGraphics, b"_", (' ', 1)),
    (CharacterSet::SpecialGraphics, b"A", ('A', 1)),
    (CharacterSet::Ascii, b"\xC3\xA9", ('\u{E9}', 2)),
    (CharacterSet::Ascii, b"\xE2\x96\x88", ('\u{2588}', 3)),
    (CharacterSet::Ascii, b"\xF0\x9D\x90\x80", ('\u{1D400}', 4)),
    (CharacterSet::SpecialGraphics, b"\xC3\xA9q", ('\u{E9}', 2)),
    (CharacterSet::Uk, b"\xE2\x96\x88\xE2", ('\u{2588}', 3)),
    (CharacterSet::Ascii, b"e\xCC\x81", ('e', 1)),
];

// Bytes that bring no letter first, in any set.
const NONE: &[&[u8]] = &[
    // あ takes two columns, and U+0301 none.
    b"\xE3\x81\x82",
    b"\xCC\x81",
    b"\xC3",
    b"\xE2\x96",
    b"\xF0\x9D\x90",
    b"\xE2\x96x",
    b"\xFF",
    b"\x80",
    b"\xC0\x80",
    b"\xC2\x80",
    b"\xC2\x85",
    b"\xC2\x9F",
    b"\x7F",
    b"\x1B",
    b"\x1B[m",
    b"\n",
    b"\x00",
];

// Bytes, and how many of them are a sequence that selects renditions: 0 where they begin none.
const STYLINGS: &[(&[u8], usize)] = &[
    (b"\x1B[m", 3),
    (b"\x1B[mx", 3),
    (b"\x1B[1;31m", 7),
    (b"\x1B[1;31mm", 7),
    (b"\x1B[38:5:1m", 9),
    (b"\x1B[;m", 4),
    (b"\x1B[m\x1B[1m", 3),
    (b"\x1B[?25m", 0),
    (b"\x1B[>4m", 0),
    (b"\x1B[1K", 0),
    (b"\x1B[M", 0),
    (b"\x1B[ m", 0),
    (b"\x1B[1\x1B[m", 0),
    (b"\x1B[1\nm", 0),
    (b"\x1B1m", 0),
    (b"\x1Bm", 0),
    (b"\x1B", 0),
    (b"\x1B[", 0),
    (b"\x1B[1;31", 0),
    (b"x\x1B[m", 0),
    (b"[m", 0),
    (b"", 0),
];

// A start, and the set by which letters are told then: none where they aren't.
const SETS: &[(&[u8], Option<CharacterSet>)] = &[
    (b"", Some(CharacterSet::Ascii)),
    (b"abc\x1B[31m", Some(CharacterSet::Ascii)),
    (b"\x1B(0", Some(CharacterSet::SpecialGraphics)),
    (b"\x1B(A", Some(CharacterSet::Uk)),
    (b"\x1B)0", Some(CharacterSet::Ascii)),
    (b"\x1B)0\x0E", Some(CharacterSet::SpecialGraphics)),
    (b"\x1B(0\x1B(B", Some(CharacterSet::Ascii)),
    (b"123456789012\x1B[4G", Some(CharacterSet::Ascii)),
    (b"\x1B[4h\x1B[4l", Some(CharacterSet::Ascii)),
    (b"\x1B[4h", None),
    (b"123456789012", None),
    (b"\x1B", None),
    (b"\x1B[1", None),
    (b"\x1Bkx", None),
    (b"\x1B]0;x", None),
    (b"\xE2\x96", None),
];

// The letter that the first of the bytes bring, and by how many.
fn letter(set: CharacterSet, bytes: &[u8]) -> Option<(char, usize)> {
    if bytes.is_empty() {
        return None;
    }
    let letter = letter_at(set, bytes)?;
    Some((letter.character, letter.taken))
}

fn assert_letter(
    rt: &impl Abort,
    set: CharacterSet,
    bytes: &[u8],
    want: Option<(char, usize)>,
) -> Result<(), Fail> {
    assert!(rt;
        letter(set, bytes) == want,
        "at {} in {set:?}",
        bytes.escape_ascii()
    );
    Ok(())
}

#[test]
fn letters_are_told(rt: HostRuntime) -> Result<(), Fail> {
    for &(set, bytes, want) in LETTERS {
        assert_letter(&rt, set, bytes, Some(want))?;
    }
    Ok(())
}

#[test]
fn or_none_are(rt: HostRuntime) -> Result<(), Fail> {
    for &bytes in NONE {
        assert_letter(&rt, CharacterSet::Ascii, bytes, None)?;
        assert_letter(&rt, CharacterSet::Uk, bytes, None)?;
        assert_letter(&rt, CharacterSet::SpecialGraphics, bytes, None)?;
    }
    Ok(())
}

#[test]
fn sequences_that_select_renditions_are_told(rt: HostRuntime) -> Result<(), Fail> {
    for &(bytes, want) in STYLINGS {
        assert!(rt; styling_at(bytes) == want, "at {}", bytes.escape_ascii());
    }
    Ok(())
}

fn assert_set(
    rt: &(impl Abort + AllocGlobal),
    start: &[u8],
    want: Option<CharacterSet>,
) -> Result<(), Fail> {
    let left = feed_reset(rt.alloc(), &[start])?;
    let set = left.terminal.writes_in();
    assert!(rt; set == want, "behind {}", start.escape_ascii());
    let is_ascii = set == Some(CharacterSet::Ascii);
    assert!(rt;
        left.terminal.writes_on() == is_ascii,
        "behind {}",
        start.escape_ascii()
    );
    Ok(())
}

#[test]
fn sets_are_told_where_letters_stand(rt: HostRuntime) -> Result<(), Fail> {
    for &(start, want) in SETS {
        assert_set(&rt, start, want)?;
    }
    Ok(())
}
