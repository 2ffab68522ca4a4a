//! The cursor: steps, places, the margins that stop it, and what is put back.
ghost use Rattle.std.specs.Prelude.{◌≤◌};

use super::{see, type_text};
use std::test::Fail;
use vt_screen::{Screen, Size};

/// Where steps of 9 up and down from column 3 of a line stop, in a region of lines 5 to 10.
fn stepped(line: u16) -> ((u8, u8), (u8, u8))
    requires { 1 ≤ line }
{
    let mut screen = Screen::reset();
    let _ = screen.set_margins(5, 10, false);
    screen.place(line, 3, false);
    screen.step_up(9);
    let up = screen.cursor();
    screen.place(line, 3, false);
    screen.step_down(9);
    (up, screen.cursor())
}

/// The line before, up or down by 9, and the line after.
const STEPS: &[(u16, u8, u8)] = &[
    (7, 5, 10),
    (5, 5, 10),
    (10, 5, 10),
    (3, 1, 10),
    (4, 1, 10),
    (12, 5, 21),
    (20, 11, 24),
];

#[test]
fn steps_stop_at_margins(rt: HostRuntime) {
    for (line, up, down) in STEPS {
        let told = stepped((*line).max(1));
        assert_eq!(rt; told, ((*up, 3), (*down, 3)), "from {line}");
    }
}

#[test]
fn steps_stop_at_columns(rt: HostRuntime) -> Result<(), Fail> {
    let mut screen = Screen::reset();
    screen.step_right(9999);
    see(&rt, &screen, "at 1 80")?;
    screen.step_left(9999);
    see(&rt, &screen, "at 1 1")?;
    screen.set_size(Size::Double);
    screen.step_right(9999);
    see(&rt, &screen, "1(Double): at 1 40")
}

#[test]
fn cuts_the_column_on_a_double_line(rt: HostRuntime) -> Result<(), Fail> {
    let mut screen = Screen::reset();
    screen.set_size(Size::Top);
    screen.index();
    screen.step_right(59);
    see(&rt, &screen, "1(Top): at 2 60")?;
    screen.step_up(1);
    see(&rt, &screen, "1(Top): at 1 40")
}

#[test]
fn places_in_the_region(rt: HostRuntime) -> Result<(), Fail> {
    let mut screen = Screen::reset();
    screen.place(99, 99, false);
    see(&rt, &screen, "at 24 80")?;
    let _ = screen.set_margins(5, 10, true);
    see(&rt, &screen, "at 5 1 margins 5 10")?;
    screen.place(99, 1, true);
    see(&rt, &screen, "at 10 1 margins 5 10")?;
    screen.place(2, 7, true);
    see(&rt, &screen, "at 6 7 margins 5 10")?;
    screen.home(true);
    see(&rt, &screen, "at 5 1 margins 5 10")?;
    screen.home(false);
    see(&rt, &screen, "at 1 1 margins 5 10")
}

/// Sets margins with the cursor at line 3 and column 3, and tells whether they are set, the margins, and the cursor.
fn set_margins(top: u16, bottom: u16) -> (bool, (u8, u8), (u8, u8)) {
    let mut screen = Screen::reset();
    screen.place(3, 3, false);
    let is_set = screen.set_margins(top, bottom, false);
    (is_set, screen.margins(), screen.cursor())
}

#[test]
fn refuses_margins(rt: HostRuntime) {
    for (top, bottom) in [
        (10, 5),
        (5, 5),
        (1, 25),
        (0, 24),
        (24, 24),
        (0, 0),
        (9999, 9999),
    ] {
        let told = set_margins(top, bottom);
        assert_eq!(rt; told, (false, (1, 24), (3, 3)), "{top} to {bottom}");
    }
}

#[test]
fn margins_that_are_set_clear_the_wrap(rt: HostRuntime) {
    let mut screen = Screen::reset();
    type_text(&mut screen, &[b'A'; 80]);
    let refused = (screen.set_margins(2, 1, false), screen.wrap());
    assert_eq!(rt; refused, (false, true));
    let taken = (screen.set_margins(23, 24, false), screen.wrap());
    assert_eq!(rt; (taken, screen.margins()), ((true, false), (23, 24)));
}

#[test]
fn puts_back_the_wrap(rt: HostRuntime) -> Result<(), Fail> {
    let mut screen = Screen::reset();
    type_text(&mut screen, &[b'A'; 80]);
    screen.place(5, 1, false);
    screen.put_back(1, 80, true, false, true);
    see(&rt, &screen, "1:A{80} at 1 80 wrap")?;
    type_text(&mut screen, b"B");
    see(&rt, &screen, "1:A{80} 2:B at 2 2")?;
    // without autowrap, and on a line with another right margin
    screen.put_back(1, 80, true, false, false);
    see(&rt, &screen, "1:A{80} 2:B at 1 80")?;
    screen.set_size(Size::Double);
    screen.put_back(1, 80, true, false, true);
    see(&rt, &screen, "1(Double):A{40} 2:B at 1 40 wrap")?;
    screen.put_back(1, 39, true, false, true);
    see(&rt, &screen, "1(Double):A{40} 2:B at 1 39")
}

#[test]
fn puts_back_into_the_region(rt: HostRuntime) -> Result<(), Fail> {
    let mut screen = Screen::reset();
    screen.set_size(Size::Double);
    let _ = screen.set_margins(5, 10, false);
    // the column is not cut at the margin of line 1
    screen.put_back(1, 80, false, true, true);
    see(&rt, &screen, "1(Double): at 5 80 margins 5 10")?;
    screen.put_back(24, 3, false, true, true);
    see(&rt, &screen, "1(Double): at 10 3 margins 5 10")
}
