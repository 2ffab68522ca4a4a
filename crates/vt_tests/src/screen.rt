//! Rows of the terminal's rules that need no bytes, by calls of the operations. What a screen shows is told in the words of the
//! legend in `terminal`.

ghost use Rattle.std.specs.Prelude.{◌≤◌};

use crate::terminal::changes::told_screen;
use std::process::Abort;
use std::test::Fail;
use vt_screen::{Rendition, Screen};

mod edits;
mod erasures;
mod moves;
mod scrolls;
mod shows;
mod sizes;
mod tabs;

/// What a screen shows is told so.
fn see(rt: &(impl Abort + AllocGlobal), screen: &Screen, want: &str) -> Result<(), Fail> {
    let text = told_screen(rt.alloc(), screen)?;
    assert_eq!(rt; text.as_str(), want);
    Ok(())
}

fn type_text(screen: &mut Screen, text: &[u8]) {
    for glyph in text {
        screen.show((*glyph).min(126), Rendition::plain(), true);
    }
}

/// Column 1 of the next line.
fn next_line(screen: &mut Screen) {
    screen.to_left();
    screen.index();
}

/// Lines `a`, `b`, `c` and `d`, margins 2 and 3, and the cursor at a place.
fn lettered(line: u16, col: u16) -> Screen
    requires line { 1 ≤ line }
    requires col { 1 ≤ col }
{
    let mut screen = Screen::reset();
    for glyph in [b'a', b'b', b'c', b'd'] {
        type_text(&mut screen, &[glyph]);
        next_line(&mut screen);
    }
    let _ = screen.set_margins(2, 3, false);
    screen.place(line, col, false);
    screen
}

/// A wide screen with `x` at columns 41, 66, 67 and 132 of a line, and the cursor at a column of it.
fn marked(line: u8, col: u8) -> Screen
    requires low { 1 ≤ line }
    requires high { line ≤ 24 }
    requires col { 1 ≤ col }
{
    let mut screen = Screen::reset();
    screen.set_columns(true, false);
    for at in [41u16, 66, 67, 132] {
        screen.place(u16::from(line), at.max(1), false);
        screen.show(b'x', Rendition::plain(), false);
    }
    screen.place(u16::from(line), u16::from(col), false);
    screen
}
