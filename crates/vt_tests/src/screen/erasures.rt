//! Erased parts of lines and of the display.
ghost use Rattle.std.specs.Prelude.{◌≤◌};

use super::{next_line, see, type_text};
use std::test::Fail;
use vt_screen::{Screen, Size};

#[test]
fn erases_to_the_cursor_with_sizes(rt: HostRuntime) -> Result<(), Fail> {
    let mut screen = Screen::reset();
    type_text(&mut screen, b"ab");
    screen.set_size(Size::Top);
    next_line(&mut screen);
    type_text(&mut screen, b"ab");
    screen.set_size(Size::Bottom);
    screen.erase_display(1);
    see(&rt, &screen, "2(Bottom): at 2 3")
}

/// A screen of letters E with five other letters in line 3, of which a part is erased from the third.
fn erased_line(part: u8) -> Screen
    requires { part ≤ 2 }
{
    let mut screen = Screen::reset();
    screen.align();
    screen.place(3, 1, false);
    screen.erase_line(2);
    type_text(&mut screen, b"abcde");
    screen.place(3, 3, false);
    screen.erase_line(part);
    screen
}

/// The part, what is shown where it is erased of the line, and then of the display.
const PARTS: &[(u8, &str, &str)] = &[
    (
        0,
        "1-2:E{80} 3:ab 4-24:E{80} at 3 3",
        "1-2:E{80} 3:ab at 3 3",
    ),
    (
        1,
        "1-2:E{80} 3:   de 4-24:E{80} at 3 3",
        "3:   de 4-24:E{80} at 3 3",
    ),
    (2, "1-2:E{80} 4-24:E{80} at 3 3", "at 3 3"),
];

#[test]
fn erases_parts(rt: HostRuntime) -> Result<(), Fail> {
    for (part, line, display) in PARTS {
        let part = (*part).min(2);
        let mut screen = erased_line(part);
        see(&rt, &screen, line)?;
        screen.erase_display(part);
        see(&rt, &screen, display)?;
    }
    Ok(())
}

#[test]
fn erasing_keeps_or_clears_the_wrap(rt: HostRuntime) -> Result<(), Fail> {
    let mut screen = Screen::reset();
    type_text(&mut screen, &[b'A'; 80]);
    screen.erase_line(2);
    see(&rt, &screen, "at 1 80 wrap")?;
    screen.erase_display(2);
    see(&rt, &screen, "at 1 80 wrap")?;
    screen.set_size(Size::Double);
    see(&rt, &screen, "1(Double): at 1 40")?;
    type_text(&mut screen, b"A");
    screen.erase_display(0);
    see(&rt, &screen, "1(Double): at 1 40 wrap")?;
    screen.erase_display(1);
    see(&rt, &screen, "at 1 40")
}
