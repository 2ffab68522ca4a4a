//! A terminal that was packed is unpacked over one of which every part is another, and is again what it was; one that
//! was cleared is as from its reset.

use crate::starts::{ABOVE, SET, WRAPPING};
use crate::told::{Left, are_same_terminals, feed_reset, told};
use std::process::Abort;
use std::test::Fail;
use xterm_term::PackedTerminal;

// Every cell of both sheets, every part and a sequence that isn't finished.
const OVER: &[u8] =
    b"\x1b#8\x1b[?1049h\x1b#8\x1b[2;3r\x1b[3g\x1b[1;2;3;4;5;7;8;9;38;5;1;48;2;1;2;3m\
    \x1b(0\x1b)A\x0e\x1b7\x1b[?1;5;6h\x1b[?7;25l\x1b[4;20h\x1b=\x1b[2;2Ha\x1b[4;6";

// A screen at its reset and full ones, the starts, cells of every kind, and what isn't finished.
const STARTS: &[&str] = &[
    "",
    "\x1b#8",
    "\x1b[6;12Hx",
    "\x1b[44m \x1b[m   \r\n\x1b[5m    ",
    "日本e\u{301}\u{323}\r\n\x1b[1;31;48;2;1;2;3m日\u{301}\x1b[K",
    SET,
    WRAPPING,
    ABOVE,
    "a\x1b[1;20;300",
    "a\x1b#",
    "a\x1bPtext",
    "a\x1bktitle",
];

pub(crate) fn unpack(left: &mut Left, packed: &PackedTerminal) -> Result<(), Fail> {
    let size = left.terminal.size();
    if size.columns != packed.size().columns || size.lines != packed.size().lines {
        return Err(Fail::new("another size"));
    }
    left.terminal.unpack(packed);
    Ok(())
}

fn assert_same(rt: &(impl Abort + AllocGlobal), left: &Left, want: &Left) -> Result<(), Fail> {
    let text = told(rt.alloc(), left)?;
    let want_text = told(rt.alloc(), want)?;
    assert_eq!(rt; text.as_str(), want_text.as_str());
    assert!(rt;
        are_same_terminals(&left.terminal, &want.terminal),
        "told the same: {text}"
    );
    Ok(())
}

// The same on the sheet that was shown, and then on the main one.
fn assert_comes_back(rt: &(impl Abort + AllocGlobal), bytes: &[u8]) -> Result<(), Fail> {
    let mut left = feed_reset(rt.alloc(), &[bytes])?;
    let packed = left.terminal.pack(rt.alloc())?;
    let mut again = feed_reset(rt.alloc(), &[OVER])?;
    unpack(&mut again, &packed)?;
    left.reports.cut(0);
    again.reports.cut(0);
    assert_same(rt, &again, &left)?;
    left.feed(&[b"\x18\x1b[?47l"])?;
    again.feed(&[b"\x18\x1b[?47l"])?;
    assert_same(rt, &again, &left)
}

#[test]
fn packed(rt: HostRuntime) -> Result<(), Fail> {
    for start in STARTS {
        assert_comes_back(&rt, start.as_bytes())?;
    }
    assert_comes_back(&rt, b"a\xe6\x97")?;
    assert_comes_back(&rt, OVER)
}

#[test]
fn cleared(rt: HostRuntime) -> Result<(), Fail> {
    for start in STARTS {
        let mut left = feed_reset(rt.alloc(), &[start.as_bytes()])?;
        left.terminal.clear();
        left.reports.cut(0);
        assert_same(&rt, &left, &feed_reset(rt.alloc(), &[])?)?;
    }
    Ok(())
}
