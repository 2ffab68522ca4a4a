use crate::fed::{fed, fed_as};
use screen_print::escaped;
use std::alloc::Global;
use std::test::Fail;
use tape_core::Watched;
use tape_tests::devices::{Writing, small_writer};
use vt_parser::ParserState;
use vt_term::{Profile, Reports, Terminal};

/// What is fed to a reset terminal, and the text that it is printed as. A worked row stands in crates/job_tests.
const TEXTS: &[(&[u8], &[u8])] = &[
    // Nothing on the screen.
    (b"", b"\x1b[?7l\x1b)0\x1b[0m\x0f\x1b[?7h\x1b[1;1H"),
    // Line drawing, by whatever set it came.
    (
        b"\x1b(0lqk",
        b"\x1b[?7l\x1b)0\x1b[1;1H\x0elqk\x1b[0m\x0f\x1b[?7h\x1b[1;4H",
    ),
    // A double width line.
    (
        b"AAAAAAAAAAAAAAAAAAAAAAAAAAAAAAAAAAAAAAAAAAAAAAAAAA\x1b#6",
        b"\x1b[?7l\x1b)0\x1b[1;1H\x1b#6AAAAAAAAAAAAAAAAAAAAAAAAAAAAAAAAAAAAAAAA\x1b[0m\x0f\x1b[?7h\x1b[1;40H",
    ),
    // 132 columns.
    (
        b"\x1b[?3h\x1b[1;132HAB",
        b"\x1b[?3h\x1b[?7l\x1b)0\x1b[1;1H                                                                                                                                   A\x1b[2;1HB\x1b[0m\x0f\x1b[?7h\x1b[2;2H",
    ),
    // A reversed screen.
    (
        b"\x1b[?5hx",
        b"\x1b[?5h\x1b[?7l\x1b)0\x1b[1;1Hx\x1b[0m\x0f\x1b[?7h\x1b[1;2H",
    ),
    // All four attributes, a rendition that stays over a blank and a line's end, and none.
    (
        b"\x1b[7;5;4;1ma b\r\nc\x1b[md",
        b"\x1b[?7l\x1b)0\x1b[1;1H\x1b[0;1;4;5;7ma b\x1b[2;1Hc\x1b[0md\x1b[0m\x0f\x1b[?7h\x1b[2;3H",
    ),
    // A space in reverse at the end is no blank, nor is the blank of the special graphics.
    (
        b"a\x1b[7m \r\n\x1b[m\x1b(0_",
        b"\x1b[?7l\x1b)0\x1b[1;1Ha\x1b[0;7m \x1b[2;1H\x1b[0m\x0e_\x1b[0m\x0f\x1b[?7h\x1b[2;2H",
    ),
    // The set changes back only for a cell that is in the other.
    (
        b"a\x1b(0q\x1b(Bb c",
        b"\x1b[?7l\x1b)0\x1b[1;1Ha\x0eq\x0fb c\x1b[0m\x0f\x1b[?7h\x1b[1;6H",
    ),
    // Sizes stay on blank lines.
    (
        b"\x1b#3\n\x1b#4\n\x1b#6\n\n\x1b#5",
        b"\x1b[?7l\x1b)0\x1b[1;1H\x1b#3\x1b[2;1H\x1b#4\x1b[3;1H\x1b#6\x1b[0m\x0f\x1b[?7h\x1b[5;1H",
    ),
    // The cursor's line is counted from 1 though it was moved from the top margin.
    (
        b"\x1b[3;9r\x1b[?6h\x1b[2;7H",
        b"\x1b[?7l\x1b)0\x1b[0m\x0f\x1b[?7h\x1b[4;7H",
    ),
    // The pound sign and the error character.
    (
        b"\x1b(A#\x1b[\x18",
        b"\x1b[?7l\x1b)0\x1b[1;1H\x0e}a\x1b[0m\x0f\x1b[?7h\x1b[1;3H",
    ),
];

/// What is fed to a reset terminal whose picture is drawn again.
const PICTURES: &[&[u8]] = &[
    b"",
    b"abc\x1b[2D\x1b[K",
    b"\x1b[24;1Hx\r\n",
    b"\x1b[?7lAAAAAAAAAAAAAAAAAAAAAAAAAAAAAAAAAAAAAAAAAAAAAAAAAAAAAAAAAAAAAAAAAAAAAAAAAAAAAAAAB",
    b"AAAAAAAAAAAAAAAAAAAAAAAAAAAAAAAAAAAAAAAAAAAAAAAAAAAAAAAAAAAAAAAAAAAAAAAAAAAAAAAA\x1b[0mB",
    b"\x1b[99;99Hx",
    b"\x1b[3g\tx",
    b"\x1b[1;5H\x1bH\r\tx",
    b"\x1b[2;4r\x1b[?6h\x1b[9Ax",
    b"ab\x1b#3\r\nab\x1b#4\x1b[1J",
    b"\x1b[3;3H\x1b#8",
    b"AAAAAAAAAAAAAAAAAAAAAAAAAAAAAAAAAAAAAAAAAAAAAAAAAAAAAAAAAAAAAAAAAAAAAAAAAAAAAAAA\x1b7\x1b[5;1H\x1b8B",
    b"\x1b[2;3r\x1bMx",
    b"\x1b(A#",
    b"AAAAAAAAAAAAAAAAAAAAAAAAAAAAAAAAAAAAAAAAAAAAAAAAAA\x1b#6",
    b"\x1b(0lqk",
    b"\x1b[?3h\x1b[1;132HAB",
    b"a\r\nb\r\nc\r\nd\x1b[2;3r\x1b[2;3r\x1b[3;1H\n",
    b"\x1b[1;4;5;7mall\x1b[m none\x1b[5;9H\x1b[7m \x1b[?5h",
    b"\x1b[?2l\x1bFa\x1bY*3",
    b"\x1b[12;34",
    b"\x1b[?3h\x1b#6\x1b[1;66Hx\n\x1b#3\n\x1b#4",
];

/// What is fed to a reset VT102 whose picture is drawn again.
const EDITED: &[&[u8]] = &[
    b"a\r\nb\r\nc\r\nd\x1b[2;3r\x1b[2;1H\x1b[L",
    b"a\r\nb\r\nc\r\nd\x1b[2;3r\x1b[2;1H\x1b[5M",
    b"a\r\nb\r\nc\r\nd\x1b[2;3r\x1b[1;2H\x1b[L",
    b"abcdef\x1b[1;2H\x1b[2P",
    b"abc\x1b[1;2H\x1b[4hXY\x1b[4lZ",
    b"AAAAAAAAAAAAAAAAAAAAAAAAAAAAAAAAAAAAAAAAAAAAAAAAAAAAAAAAAAAAAAAAAAAAAAAAAAAAAAAB\x1b[1;1H\x1b[4hC",
    b"\x1b[c",
    b"ab\x1b#6\x1b[L",
    b"ab\x1b[4h\rc",
];

/// The text that draws the screen of a terminal that was fed these bytes.
fn drawn(alloc: Global, bytes: &[u8]) -> Result<Vec<u8>, Fail> {
    let terminal = fed(alloc, bytes)?;
    let mut writer = Watched::new(Vec::new(alloc));
    escaped(&terminal, &mut writer)?;
    Ok(writer.into_inner())
}

#[test]
fn writes_only_what_the_picture_needs(rt: HostRuntime) -> Result<(), Fail> {
    for (bytes, wanted) in TEXTS {
        let text = drawn(rt.alloc(), bytes)?;
        assert_eq!(rt; text.as_slice(), *wanted, "after {bytes:?}");
    }
    Ok(())
}

/// Whether two terminals show the same picture and cursor.
fn look_alike(one: &Terminal, other: &Terminal) -> bool {
    for line in 1..25 {
        if *one.screen().row(line) != *other.screen().row(line) {
            return false;
        }
    }
    one.screen().columns() == other.screen().columns()
        && one.screen().cursor() == other.screen().cursor()
        && one.modes().reverse_screen == other.modes().reverse_screen
}

/// Whether the escaped print of a terminal, fed to a reset one of a profile, gives the same picture and cursor, and asks
/// for nothing.
fn is_redrawn(alloc: Global, terminal: &Terminal, profile: Profile) -> Result<bool, Fail> {
    let mut writer = Watched::new(Vec::new(alloc));
    escaped(terminal, &mut writer)?;
    let mut reports = Reports::new(alloc);
    let mut again = Terminal::reset_as(profile);
    again.feed(writer.into_inner().as_slice(), &mut reports)?;
    let is_quiet = *again.parser_state() == ParserState::Ground && reports.bytes().is_empty();
    Ok(is_quiet && look_alike(&again, terminal))
}

#[test]
fn draws_the_same_picture_again(rt: HostRuntime) -> Result<(), Fail> {
    for bytes in PICTURES {
        let terminal = fed(rt.alloc(), bytes)?;
        assert!(rt;
            is_redrawn(rt.alloc(), &terminal, Profile::Vt100)?,
            "after {bytes:?}"
        );
    }
    Ok(())
}

/// Whether the escaped print of a VT102 that was fed these bytes gives the same picture on a terminal of this profile.
fn is_redrawn_on(alloc: Global, bytes: &[u8], profile: Profile) -> Result<bool, Fail> {
    let terminal = fed_as(alloc, Profile::Vt102, bytes)?;
    is_redrawn(alloc, &terminal, profile)
}

#[test]
fn draws_edited_lines_again(rt: HostRuntime) -> Result<(), Fail> {
    for bytes in EDITED {
        let alike = (
            is_redrawn_on(rt.alloc(), bytes, Profile::Vt102)?,
            is_redrawn_on(rt.alloc(), bytes, Profile::Vt100)?,
        );
        assert_eq!(rt; alike, (true, true), "after {bytes:?}");
    }
    Ok(())
}

#[test]
fn a_failing_writer_holds_a_beginning(rt: HostRuntime) -> Result<(), Fail> {
    let terminal = fed(rt.alloc(), b"\x1b[1mone\r\n\n\x1b(0q")?;
    let whole = b"\x1b[?7l\x1b)0\x1b[1;1H\x1b[0;1mone\x1b[3;1H\x0eq\x1b[0m\x0f\x1b[?7h\x1b[3;2H";
    for room in 0..whole.len() + 2 {
        for flush_fails in [false, true] {
            let mut writer = Watched::new(small_writer(rt.alloc(), room, flush_fails));
            let answer = escaped(&terminal, &mut writer);
            let writing = Writing::of(answer, writer);
            assert_eq!(rt; writing.told(), writing.wanted(whole), "room for {room}");
        }
    }
    Ok(())
}
