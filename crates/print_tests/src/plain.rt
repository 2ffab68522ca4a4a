use crate::fed::fed;
use screen_print::plain;
use std::alloc::Global;
use std::test::Fail;
use tape_core::Watched;
use tape_tests::devices::{Writing, small_writer};

/// What is fed, and what is printed before empty lines fill the 24 up. Worked rows stand in crates/job_tests.
const TEXTS: [(&[u8], &str); 8] = [
    (b"", ""),
    // Line drawing by SO.
    (b"\x1b)0x\x0ex\x0fx", "x\u{2502}x\n"),
    // Spaces and blanks at the end go, whatever their rendition; inside they stay.
    (b" a\x1b[7m  \x1b[m ", " a\n"),
    (b"\x1b(0_a_b__", " \u{2592} \u{2409}\n"),
    (b"\x1b[4m \x1b(0_\x1b(B ", ""),
    // On a double width line each glyph stands once, up to the middle.
    (
        b"\x1b#60123456789012345678901234567890123456789x",
        "0123456789012345678901234567890123456789\nx\n",
    ),
    (b"\x1b#3ab\r\n\x1b#4ab", "ab\nab\n"),
    // All special graphics.
    (
        b"\x1b(0`abcdefghijklmnopqrstuvwxyz{|}~",
        "\u{25c6}\u{2592}\u{2409}\u{240c}\u{240d}\u{240a}\u{b0}\u{b1}\u{2424}\u{240b}\u{2518}\u{2510}\u{250c}\u{2514}\u{253c}\u{23ba}\u{23bb}\u{2500}\u{23bc}\u{23bd}\u{251c}\u{2524}\u{2534}\u{252c}\u{2502}\u{2264}\u{2265}\u{3c0}\u{2260}\u{a3}\u{b7}\n",
    ),
];

/// The text with empty lines behind it, 24 in all.
fn filled_up(alloc: Global, begins: &str) -> Result<String, Fail> {
    let lines = begins.bytes().filter(|byte| *byte == b'\n').count();
    let mut text = String::from_str(alloc, begins)?;
    for _ in lines..24 {
        text.push_str("\n")?;
    }
    Ok(text)
}

/// The plain text of a terminal that was fed these bytes.
fn printed(alloc: Global, bytes: &[u8]) -> Result<Vec<u8>, Fail> {
    let terminal = fed(alloc, bytes)?;
    let mut writer = Watched::new(Vec::new(alloc));
    plain(&terminal, &mut writer)?;
    Ok(writer.into_inner())
}

#[test]
fn prints_each_line_to_its_right_margin(rt: HostRuntime) -> Result<(), Fail> {
    for (bytes, begins) in &TEXTS {
        let text = printed(rt.alloc(), bytes)?;
        let wanted = filled_up(rt.alloc(), begins)?;
        assert_eq!(rt; text.as_slice(), wanted.as_bytes(), "after {bytes:?}");
    }
    Ok(())
}

#[test]
fn prints_132_columns(rt: HostRuntime) -> Result<(), Fail> {
    let text = printed(rt.alloc(), b"\x1b[?3h\x1b(0\x1b[1;1Ha\x1b[1;132Hab")?;
    let ends = b" \xe2\x96\x92\n\xe2\x90\x89\n\n\n\n\n\n\n\n\n\n\n\n\n\n\n\n\n\n\n\n\n\n\n";
    let both = text.as_slice().starts_with(b"\xe2\x96\x92 ") && text.as_slice().ends_with(ends);
    assert_eq!(rt; (text.len(), both), (3 + 130 + 3 + 1 + 3 + 1 + 22, true));
    Ok(())
}

#[test]
fn a_failing_writer_holds_a_beginning(rt: HostRuntime) -> Result<(), Fail> {
    let terminal = fed(rt.alloc(), b"one\r\n\x1b(0lqk\r\n\r\n  x")?;
    let whole =
        "one\n\u{250c}\u{2500}\u{2510}\n\n  \u{2502}\n\n\n\n\n\n\n\n\n\n\n\n\n\n\n\n\n\n\n\n\n".as_bytes();
    for room in 0..whole.len() + 2 {
        for flush_fails in [false, true] {
            let mut writer = Watched::new(small_writer(rt.alloc(), room, flush_fails));
            let answer = plain(&terminal, &mut writer);
            let writing = Writing::of(answer, writer);
            assert_eq!(rt; writing.told(), writing.wanted(whole), "room for {room}");
        }
    }
    Ok(())
}
