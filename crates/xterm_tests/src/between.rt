//! What is done to a terminal between bytes, and what is read of its main sheet.

ghost use Rattle.std.specs.Prelude.{◌≡◌, ◌<◌, length, true};

use crate::told::{feed_reset, told};
use characters::{Begun, Reading};
use std::process::Abort;
use std::test::Fail;
use xterm_term::Terminal;

// Bytes behind which a character is put, and what they leave then.
const PUT: &[(&[u8], char, &str)] = &[
    (b"a", 'b', "1:ab at 1 3 last b"),
    (b"a", '日', "1:a日 at 1 4 last 日"),
    (b"123456789012", 'b', "1:123456789012 2:b at 2 2 last b"),
    (b"a", '\u{9b}', "1:a at 1 2"),
];

// Bytes, those that go on behind what was done, and what all leave.
const FORGOTTEN: &[(&[u8], &[u8], &str)] = &[
    (b"a", b"\x1b[3b", "1:a at 1 2"),
    (b"a", b"b", "1:ab at 1 3 last b"),
];

const BROKEN: &[(&[u8], &[u8], &str)] = &[
    (b"\xe6\x97", b"a", "1:\u{FFFD}a at 1 3 last a"),
    (
        b"a\xc3",
        b"\xa9",
        "1:a\u{FFFD}\u{FFFD} at 1 4 last \u{FFFD}",
    ),
];

#[test]
fn a_character_is_put(rt: HostRuntime) -> Result<(), Fail> {
    for &(bytes, character, want) in PUT {
        let mut left = feed_reset(rt.alloc(), &[bytes])?;
        left.terminal.put(character);
        let text = told(rt.alloc(), &left)?;
        assert_eq!(rt; text.as_str(), want, "at {}", bytes.escape_ascii());
    }
    Ok(())
}

#[test]
fn the_last_character_is_forgotten(rt: HostRuntime) -> Result<(), Fail> {
    for &(bytes, behind, want) in FORGOTTEN {
        let mut left = feed_reset(rt.alloc(), &[bytes])?;
        left.terminal.forget_last();
        left.feed(&[behind])?;
        let text = told(rt.alloc(), &left)?;
        assert_eq!(rt; text.as_str(), want, "at {}", bytes.escape_ascii());
    }
    Ok(())
}

// Whether a character isn't finished.
fn is_begun(terminal: &Terminal) -> bool
    ensures { result ≡ true → 0 < length terminal.now.character }
{
    !matches!(terminal.character(), Begun::Nothing)
}

#[test]
fn a_character_is_broken_off(rt: HostRuntime) -> Result<(), Fail> {
    for &(bytes, behind, want) in BROKEN {
        let mut left = feed_reset(rt.alloc(), &[bytes])?;
        assert!(rt; is_begun(&left.terminal) && left.terminal.reading(b'x') == Reading::Broken);
        left.terminal.break_off();
        left.feed(&[behind])?;
        let text = told(rt.alloc(), &left)?;
        assert_eq!(rt; text.as_str(), want, "at {}", bytes.escape_ascii());
    }
    Ok(())
}

#[test]
fn the_main_sheet_is_read(rt: HostRuntime) -> Result<(), Fail> {
    for bytes in ["a", "a\x1b[?47h", "a\x1b[?47h\x1b[1;1Hb"] {
        let left = feed_reset(rt.alloc(), &[bytes.as_bytes()])?;
        let screen = left.terminal.screen();
        assert!(rt; screen.main_row(1)[0].character() == 'a', "at {bytes}");
        assert!(rt; screen.main_used(1) >= 1, "at {bytes}");
    }
    Ok(())
}
